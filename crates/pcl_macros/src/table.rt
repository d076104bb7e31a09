//! The macros that a job has defined.

ghost use Rattle.std.specs.Prelude.{◌≡◌};
ghost use Rattle.pcl_macros.specs.Table.{is_there};

use indexmap::IndexMap;
use pcl_base::{CallFault, Kind};
use std::alloc::Global;
use std::marker::Model;
use std::ops::Range;

/// What a macro control deletes or marks (`ESC&f#X`).
#[derive(Clone, Copy, Debug, PartialEq, Eq)]
pub enum MacroControl {
    /// Deletes all macros.
    All,
    /// Deletes the temporary macros.
    Temporary,
    /// Deletes the macro of the ID.
    One,
    /// Makes the macro of the ID temporary.
    MakeTemporary,
    /// Makes the macro of the ID permanent.
    MakePermanent,
}

/// The body of a macro, by its places in the list of commands.
#[derive(Clone, Copy)]
pub struct Body {
    /// The place of the first command.
    pub from: usize,
    /// The place after the last command.
    pub to: usize,
    pub is_permanent: bool,
    /// How many deletions of temporary macros were counted when it was defined or marked.
    pub deletions: u16,
}

impl Body {
    /// Whether it is still there after this many deletions of temporary macros.
    fn is_there(self, deletions: u16) -> bool
        ensures { result ≡ is_there deletions self }
    {
        self.is_permanent || self.deletions == deletions
    }
}

/// A definition that has begun and not ended.
#[derive(Clone, Copy)]
pub struct Definition {
    /// The ID of the macro.
    pub id: u16,
    /// The place of its first command.
    pub from: usize,
}

/// The macros that are there, by ID, and the definition that is open, if any. Commands stay in their list.
#[derive(Drop)]
pub struct Macros {
    // A temporary one that a deletion took is looked past, until all of these go at once.
    bodies: IndexMap<u16, Body>,
    // How many deletions of temporary macros came since then.
    deletions: u16,
    begun: Option<Definition>,
}

impl Model for Macros {
    ghost use Rattle.pcl_macros.specs.Table.{MacroTable, table_view, IsMacroMap};

    ghost Value = { MacroTable };

    ghost view = { table_view };

    // One body for an ID, and none from after a later deletion than the last.
    ghost invariant = { IsMacroMap };
}

impl Macros {
    ghost use Rattle.std.specs.Prelude.{ℕ, List, [], None, Some, false, if◌then◌else◌};
    ghost use Rattle.pcl_macros.specs.History.{MacroEvent, control, has_permanent};
    ghost use Rattle.pcl_macros.specs.Table.{Holds, Follows, HasEnd, Controls, is_begun, macro_at, places_of};

    /// No macros, and no definition.
    pub fn new(alloc: Global) -> Macros
        ensures holds { Holds result [] }
        ensures begun { is_begun result ≡ false }
    {
        Macros {
            bodies: IndexMap::new(alloc),
            deletions: 0,
            begun: None,
        }
    }

    /// Begins the definition of a macro (`ESC&f0X`) at a place in the list of commands.
    pub fn begin(&mut self, id: u16, from: usize)
        requires { is_begun self.old ≡ false }
        ensures { self.new ≡ record self.old { begun = Some (record { id = id; from = from }) } }
    {
        self.begun = Some(Definition { id, from });
    }

    /// Ends the definition (`ESC&f1X`) before a place in the list of commands. What stands between is the macro of its ID,
    /// temporary, in place of any other. MacroControl where no definition is open. After an error nothing has changed.
    pub fn end(&mut self, to: usize) -> Result<(), CallFault>
        ensures { HasEnd to result self.old self.new }
    {
        let Some(definition) = self.begun else {
            return Err(CallFault::Refused(Kind::MacroControl));
        };
        let body = Body {
            from: definition.from,
            to,
            is_permanent: false,
            deletions: self.deletions,
        };
        match self.bodies.insert(definition.id, body) {
            Ok(_) => {
                self.begun = None;
                Ok(())
            }
            Err(_) => Err(CallFault::Memory),
        }
    }

    /// The places of a macro's commands in the list of commands, if the macro is there.
    pub fn body(&self, id: u16) -> Option<Range<usize>>
        ensures { result ≡ places_of (macro_at self.now id) }
    {
        let body = self.bodies.get(&id)?;
        if !body.is_there(self.deletions) {
            return None;
        }
        Some(body.from..body.to)
    }

    /// Deletes macros, or makes a macro temporary or permanent. What isn't there is left alone, and so is a definition that
    /// is open.
    pub fn control(&mut self, id: u16, what: MacroControl)
        ensures { Controls self.old self.new (control what id) }
    {
        match what {
            MacroControl::All => self.bodies.clear(),
            MacroControl::Temporary => self.delete_temporary(),
            MacroControl::One => self.delete(id),
            MacroControl::MakeTemporary => self.set_permanent(id, false),
            MacroControl::MakePermanent => self.set_permanent(id, true),
        }
    }

    /// Deletes the temporary macros: from now on they are looked past. All are looked at where no more deletions can be counted, and then
    /// those go.
    fn delete_temporary(&mut self)
        ensures { Controls self.old self.new (control MacroControl.Temporary 0) }
    {
        match self.deletions.checked_add(1) {
            Some(deletions) => self.deletions = deletions,
            None => self.forget_temporary(),
        }
    }

    /// Deletes the temporary macros, and those that are looked past.
    fn forget_temporary(&mut self)
        ensures { Controls self.old self.new (control MacroControl.Temporary 0) }
    {
        self.bodies.retain(
            |_id: &u16, body: &mut Body| -> bool
                ensures { (result ≡ body.old.is_permanent) × (body.new ≡ body.old) }
            { body.is_permanent },
        );
        self.deletions = 0;
    }

    /// Deletes a macro.
    fn delete(&mut self, id: u16)
        ensures { Controls self.old self.new (control MacroControl.One id) }
    {
        self.bodies.swap_remove(&id);
    }

    /// Makes a macro temporary or permanent.
    fn set_permanent(&mut self, id: u16, is_permanent: bool)
        ensures { Controls self.old self.new
            (control (if is_permanent then MacroControl.MakePermanent else MacroControl.MakeTemporary) id) }
    {
        let deletions = self.deletions;
        let Some(body) = self.bodies.get_mut(&id) else {
            return;
        };
        if !body.is_there(deletions) {
            return;
        }
        body.is_permanent = is_permanent;
        body.deletions = deletions;
    }

    /// Whether a macro is there that is permanent.
    pub fn has_permanent(&self) -> bool
        ensures { (history : List MacroEvent) → Holds self.now history → result ≡ has_permanent history }
    {
        self.bodies.values().any(|body| body.is_permanent)
    }

    /// Whether a definition is open.
    pub fn is_begun(&self) -> bool
        ensures { result ≡ is_begun self.now }
    {
        self.begun.is_some()
    }
}
