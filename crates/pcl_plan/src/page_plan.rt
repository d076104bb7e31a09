//! Plans of pages.

ghost use Rattle.std.specs.Prelude.{◌≡◌, ◌<◌, length};
ghost use Rattle.pcl_output.specs.Nodes.{start};
ghost use Rattle.pcl_output.specs.Table.{node_number};

use pcl_base::Method;
use pcl_output::{Step, Table};
use std::marker::Model;

/// What a page text does about the rows of a page, and a table that shows that no page text is shorter.
#[derive(Drop, Debug)]
pub struct Plan {
    steps: Vec<Step>,
    table: Table,
}

impl Model for Plan {
    ghost use Rattle.pcl_plan.specs.Plans.{StepsAndTable};
    ghost use Rattle.pcl_plan.specs.PlanModel.{plan_view, IsWithTable};

    ghost Value = { StepsAndTable };

    ghost view = { plan_view };

    ghost invariant = { IsWithTable };
}

impl Plan {
    /// A plan of these steps, with this table.
    pub fn new(steps: Vec<Step>, table: Table) -> Plan
        requires { 0 < length table }
        ensures steps { result.steps ≡ steps.items }
        ensures table { result.table ≡ table }
    {
        Plan { steps, table }
    }

    /// The parameters of the page text's body, in order.
    pub fn steps(&self) -> &[Step]
        ensures { result.now ≡ self.now.steps }
    {
        &self.steps
    }

    /// The least numbers of all nodes of the page.
    pub fn table(&self) -> &Table
        ensures { result.now ≡ self.now.table }
    {
        &self.table
    }

    /// The same table, where the plan is no longer needed.
    pub fn into_table(self) -> Table
        ensures { result ≡ self.table }
    {
        self.table
    }

    /// How many bytes the body has: the number of the node where it begins.
    pub fn cost(&self) -> u32
        ensures { result ≡ node_number self.now.table start }
    {
        self.table.number(0, Method::Plain, false)
    }
}
