//! Tables of numbers for the nodes of a page.

ghost use Rattle.std.specs.Prelude.{◌≡◌, ◌≢◌, ℕ, ◌+◌, ◌^◌, ◌<◌, ◌≤◌, Bool, length, IfOk};
ghost use Rattle.pcl_base.specs.declared.method.Method.{Method as RowMethod};
ghost use Rattle.pcl_output.specs.declared.node.Node.{Node};

use crate::by_method::ByMethod;
use pcl_base::Method;
use std::alloc::{AllocError, Global};
use std::marker::Model;

/// The numbers of the nodes after the same rows.
#[derive(Clone, Copy, Debug)]
pub struct RowNumbers {
    pub outside: ByMethod,
    pub inside: ByMethod,
}

impl RowNumbers {
    ghost use Rattle.pcl_output.specs.Table.{end_numbers};
    ghost use Rattle.pcl_output.specs.Table.{IsSwitched};
    ghost use Rattle.pcl_output.specs.Table.{by_method};

    /// The numbers where the rest of the rows is white. Outside a sequence nothing is to come, inside one
    /// a parameter that ends it, `M` without a digit.
    pub fn at_end() -> RowNumbers
        ensures { result ≡ end_numbers }
    {
        RowNumbers {
            outside: ByMethod::alike(0),
            inside: ByMethod::alike(1),
        }
    }

    /// The numbers where the rest isn't white. Inside a sequence a row is sent or rows are skipped,
    /// perhaps in another method, and outside one is opened before. `direct` is what that costs with no
    /// switch before it.
    pub fn from_direct(direct: ByMethod) -> RowNumbers
        requires { (method : RowMethod) → by_method direct method < 2 ^ 30 }
        ensures { IsSwitched (by_method direct) result }
    {
        let others = direct.runs.min(direct.packed).min(direct.delta);
        let switched = (direct.plain + 1).min(others + 2);
        let inside = direct.at_most(switched);
        let outside = inside.plus(3);
        RowNumbers { outside, inside }
    }
}

/// A number for each node of a page: how many of its rows are printed, the method, and whether an `ESC*b`
/// sequence is open (docs/OUTPUT.md, "Page texts"). A number bounds from below the bytes of the body that are
/// still to come.
#[derive(Drop, Debug)]
pub struct Table {
    // After no row first, after all rows last.
    numbers: Vec<RowNumbers>,
}

impl Model for Table {
    ghost use Rattle.std.specs.Prelude.{List};
    ghost use Rattle.pcl_output.specs.declared.table.RowNumbers.{RowNumbers};
    ghost use Rattle.pcl_output.specs.TableModel.{table_view, IsTable};

    ghost Value = { List RowNumbers };

    ghost view = { table_view };

    ghost invariant = { IsTable };
}

impl Table {
    ghost use Rattle.std.specs.Prelude.{slice_index_or};
    ghost use Rattle.pcl_output.specs.Table.{number_in, node_number, no_numbers};
    ghost use Rattle.pcl_output.specs.Table.{rest};

    /// A table of zeros for a page of this many rows, 65535 at most. It fails where memory runs out.
    pub fn new(alloc: Global, rows: u32) -> Result<Table, AllocError>
        requires { rows ≤ 65535 }
        ensures rows { IfOk result (λ table. length table ≡ rows + 1) }
        ensures zeros { IfOk result (λ table. (node : Node) → node_number table node ≡ 0) }
    {
        let none = RowNumbers {
            outside: ByMethod::alike(0),
            inside: ByMethod::alike(0),
        };
        Ok(Table {
            numbers: vec![in alloc; none; rows as usize + 1]?,
        })
    }

    /// A table of the numbers after no row, after one, and so on to all.
    pub fn of(numbers: Vec<RowNumbers>) -> Table
        requires some { 0 < length numbers.items }
        requires few { length numbers.items ≤ 65536 }
        ensures { result ≡ numbers.items }
    {
        Table { numbers }
    }

    /// The numbers after this many rows.
    pub fn row(&self, row: u32) -> RowNumbers
        requires { row < length self.now }
        ensures { result ≡ slice_index_or self.now row no_numbers }
    {
        self.numbers[row as usize]
    }

    /// How many rows the page has.
    pub fn rows(&self) -> u32
        ensures { result + 1 ≡ length self.now }
    {
        self.numbers.len() as u32 - 1
    }

    /// The number of a node: after this many rows, in a method, inside a sequence or outside.
    pub fn number(&self, row: u32, method: Method, inside: bool) -> u32
        requires { row < length self.now }
        ensures { result ≡ node_number self.now record { row = row; method = method; inside = inside } }
    {
        let numbers = self.numbers[row as usize];
        if inside {
            numbers.inside.get(method)
        } else {
            numbers.outside.get(method)
        }
    }

    /// The lesser of the two numbers after this many rows in a method: inside a sequence and outside.
    pub fn rest(&self, row: u32, method: Method) -> u32
        requires { row < length self.now }
        ensures { result ≡ rest (node_number self.now) row method }
    {
        self.number(row, method, false)
            .min(self.number(row, method, true))
    }

    /// Changes the number of a node.
    pub fn set(&mut self, row: u32, method: Method, inside: bool, number: u32)
        requires { row < length self.old }
        ensures rows { length self.new ≡ length self.old }
        ensures changed { node_number self.new record { row = row; method = method; inside = inside } ≡ number }
        ensures others { (node : Node) → node ≢ record { row = row; method = method; inside = inside }
            → node_number self.new node ≡ node_number self.old node }
    {
        let mut numbers = self.numbers[row as usize];
        if inside {
            numbers.inside.set(method, number);
        } else {
            numbers.outside.set(method, number);
        }
        self.numbers[row as usize] = numbers;
    }

    /// Changes the numbers of all nodes after this many rows.
    pub fn put(&mut self, row: u32, numbers: RowNumbers)
        requires { row < length self.old }
        ensures rows { length self.new ≡ length self.old }
        ensures changed { (method : RowMethod) (inside : Bool)
            → node_number self.new record { row = row; method = method; inside = inside } ≡ number_in numbers method inside }
        ensures others { (node : Node) → node.row ≢ row → node_number self.new node ≡ node_number self.old node }
    {
        self.numbers[row as usize] = numbers;
    }
}
