use super::assert_gives;
use pcl_base::{CallFault, Kind};
use pcl_macros::{MacroControl, Macros};
use std::alloc::Global;

// Two definitions of an ID: the last one is its body. An end is refused where none is open.
#[test]
fn definitions(rt: HostRuntime) {
    let mut macros = Macros::new(rt.alloc());
    for (from, to) in [(3, 5), (7, 7)] {
        assert!(rt; !macros.is_begun());
        macros.begin(9, from);
        assert!(rt; macros.is_begun());
        let ended = macros.end(to);
        assert_gives(
            &rt,
            &to,
            &(ended, macros.body(9), macros.body(8)),
            &(Ok(()), Some(from..to), None),
        );
    }
    let refused = Err(CallFault::Refused(Kind::MacroControl));
    assert_gives(&rt, &"no definition is open", &macros.end(8), &refused);
}

/// Which of macros 1 (temporary) and 2 (permanent) are there after a control and then a deletion of temporary macros, if
/// that is asked for.
fn left_by(alloc: Global, what: MacroControl, id: u16, and_delete: bool) -> [bool; 2] {
    let mut macros = Macros::new(alloc);
    for id in [1, 2] {
        if !macros.is_begun() {
            macros.begin(id, 0);
        }
        let _ = macros.end(1);
    }
    macros.control(2, MacroControl::MakePermanent);
    macros.control(id, what);
    if and_delete {
        macros.control(0, MacroControl::Temporary);
    }
    [macros.body(1).is_some(), macros.body(2).is_some()]
}

// What each control leaves of these, with or without that deletion.
const CONTROLS: [(MacroControl, u16, bool, [bool; 2]); 7] = [
    (MacroControl::All, 1, false, [false, false]),
    (MacroControl::Temporary, 1, false, [false, true]),
    (MacroControl::One, 2, false, [true, false]),
    (MacroControl::One, 3, false, [true, true]),
    (MacroControl::MakeTemporary, 2, true, [false, false]),
    (MacroControl::MakePermanent, 1, true, [true, true]),
    (MacroControl::MakePermanent, 3, true, [false, true]),
];

#[test]
fn controls(rt: HostRuntime) {
    for (what, id, and_delete, wanted) in &CONTROLS {
        let left = left_by(rt.alloc(), *what, *id, *and_delete);
        assert_gives(&rt, &(*what, *id), &left, wanted);
    }
}

// A body that is defined again is temporary, also where the one before was permanent; an open definition outlasts a
// control.
#[test]
fn defined_again(rt: HostRuntime) {
    let mut macros = Macros::new(rt.alloc());
    macros.begin(4, 0);
    let _ = macros.end(1);
    macros.control(4, MacroControl::MakePermanent);
    if !macros.is_begun() {
        macros.begin(4, 2);
    }
    macros.control(4, MacroControl::Temporary);
    assert_gives(
        &rt,
        &"the body before, permanent",
        &macros.body(4),
        &Some(0..1),
    );
    let ended = macros.end(6);
    assert_gives(
        &rt,
        &"the body after",
        &(ended, macros.body(4)),
        &(Ok(()), Some(2..6)),
    );
    macros.control(4, MacroControl::Temporary);
    assert_gives(&rt, &"temporary again", &macros.body(4), &None);
}
