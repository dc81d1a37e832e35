//! Views one after another: what they give and lend of two documents, and the places of names and
//! of values that they tell, which are those of what the store holds then.

use crate::asserts::none_is_wrong;
use crate::calls::Call;
use crate::documents::Document::Long;
use crate::documents::{EMPTY, GREAT, LIBRARY, RENUMBERED, TURNED};
use crate::loans::Look;
use crate::stores::in_memory;
use crate::views::{Step, Task, wrong_step};
use xq_atoms::Want;
use xq_store::Put;

/// Two documents are stored, and the one that was stored last stands first. What a view of both
/// gives back is the store with both, which takes documents again.
const BOTH: [Step; 2] = [
    (
        &[
            Call::Put("b", LIBRARY, Put::Stored),
            Call::Put("B", EMPTY, Put::Stored),
        ],
        Task::Both,
    ),
    (
        &[
            Call::List(&["B", "b"]),
            Call::Load("b", Some(LIBRARY)),
            Call::Put("b", EMPTY, Put::Replaced),
            Call::Load("b", Some(EMPTY)),
        ],
        Task::Names(&[]),
    ),
];

/// The places of a name are told once it was looked for among all rows, also where there are none:
/// in later views too, and until another document is put. Each row is looked at once for a name. One
/// that was looked for before all rows were there is found as the last of them come.
const NAMES: [Step; 4] = [
    (
        &[Call::Put("b", LIBRARY, Put::Stored)],
        Task::Names(&[
            (0, Look::Find("book")),
            (0, Look::Told("book", None)),
            (0, Look::Read),
            (0, Look::Told("book", Some(&[2, 5]))),
            (0, Look::Count("book", 0)),
            (0, Look::Told("lib", None)),
            (0, Look::Find("id")),
            (0, Look::Told("id", Some(&[]))),
            (0, Look::Count("shelf", 8)),
            (0, Look::Told("shelf", Some(&[]))),
            (0, Look::Count("shelf", 0)),
            (1, Look::Count("book", 0)),
            (1, Look::Told("book", None)),
        ]),
    ),
    (
        &[Call::Put("B", EMPTY, Put::Stored)],
        Task::Names(&[
            (1, Look::Told("book", Some(&[2, 5]))),
            (1, Look::Find("lib")),
            (1, Look::Told("lib", Some(&[1]))),
            (0, Look::Read),
            (0, Look::Find("book")),
            (0, Look::Told("book", Some(&[]))),
        ]),
    ),
    (
        &[Call::Put("b", TURNED, Put::Replaced)],
        Task::Names(&[
            (1, Look::Told("book", None)),
            (1, Look::Told("lib", None)),
            (1, Look::Read),
            (1, Look::Find("book")),
            (1, Look::Find("lib")),
            (1, Look::Told("book", Some(&[1]))),
            (1, Look::Told("lib", Some(&[2, 3]))),
        ]),
    ),
    (&[], Task::Names(&[(1, Look::Told("lib", Some(&[2, 3])))])),
];

/// The places of a value are told once its name was looked for among all rows, also where there are
/// none: in later views too, and until another document is put.
const VALUES: [Step; 4] = [
    (
        &[Call::Put("b", LIBRARY, Put::Stored)],
        Task::Names(&[
            (0, Look::FindValues("id")),
            (0, Look::Valued("id", "1", None)),
            (0, Look::Read),
            (0, Look::Valued("id", "1", None)),
            (0, Look::FindValues("id")),
            (0, Look::Valued("id", "1", Some(&[3]))),
            (0, Look::Valued("id", "2", Some(&[6]))),
            (0, Look::Valued("id", "3", Some(&[]))),
            (0, Look::Valued("id", "", Some(&[]))),
            (0, Look::FindValues("book")),
            (0, Look::Valued("book", "", Some(&[]))),
            (0, Look::FindValues("shelf")),
            (0, Look::Valued("shelf", "1", Some(&[]))),
            (1, Look::FindValues("id")),
            (1, Look::Valued("id", "1", None)),
        ]),
    ),
    (
        &[Call::Put("B", EMPTY, Put::Stored)],
        Task::Names(&[
            (1, Look::Valued("id", "2", Some(&[6]))),
            (0, Look::Read),
            (0, Look::FindValues("id")),
            (0, Look::Valued("id", "2", Some(&[]))),
        ]),
    ),
    (
        &[Call::Put("b", RENUMBERED, Put::Replaced)],
        Task::Names(&[
            (1, Look::Valued("id", "2", None)),
            (1, Look::Read),
            (1, Look::FindValues("id")),
            (1, Look::Valued("id", "1", Some(&[]))),
            (1, Look::Valued("id", "2", Some(&[2, 4]))),
        ]),
    ),
    (
        &[],
        Task::Names(&[(1, Look::Valued("id", "2", Some(&[2, 4])))]),
    ),
];

/// Of the great library more is there than is read at once. A name that is looked for before is
/// found as the last rows come.
const PART: [Step; 1] = [(
    &[Call::Put("a", GREAT, Put::Stored)],
    Task::Names(&[
        (0, Look::Begin),
        (0, Look::Find("lib")),
        (0, Look::Told("lib", None)),
        (0, Look::Read),
        (0, Look::Told("lib", Some(&[1]))),
        (0, Look::Find("lib")),
        (0, Look::Told("lib", Some(&[1]))),
    ]),
)];

/// What is kept of a small document stays beside another of few rows and long values. For a longer
/// one its rows are forgotten, and with them the places of its attributes by their values; those of
/// its elements by their names stay.
const ROOM: [Step; 3] = [
    (
        &[Call::HandOver("a", LIBRARY, Put::Stored)],
        Task::Names(&[
            (0, Look::Find("book")),
            (0, Look::Told("book", Some(&[2, 5]))),
        ]),
    ),
    (
        &[Call::HandOver("b", Long(64), Put::Stored)],
        Task::Names(&[(0, Look::Told("book", Some(&[2, 5])))]),
    ),
    (
        &[Call::HandOver("b", Long(130), Put::Replaced)],
        Task::Names(&[
            (0, Look::Told("book", Some(&[2, 5]))),
            (0, Look::FindValues("id")),
            (0, Look::Valued("id", "1", None)),
            (0, Look::Read),
            (0, Look::Told("book", Some(&[2, 5]))),
            (0, Look::FindValues("id")),
            (0, Look::Valued("id", "1", Some(&[3]))),
        ]),
    ),
];

/// The steps, each list for a new store.
const LISTS: [&[Step]; 4] = [&BOTH, &NAMES, &VALUES, &PART];

/// The steps of each list over views of a new store.
#[test]
fn views(rt: HostRuntime) -> Result<(), Want> {
    for (number, steps) in LISTS.iter().enumerate() {
        none_is_wrong(
            &rt,
            wrong_step(rt.alloc(), in_memory(rt.alloc())?, steps)?,
            number,
        );
    }
    Ok(())
}

/// Long values are read where there is room for them.
#[test]
fn room_for_long_values(rt: HostRuntime) -> Result<(), Want> {
    none_is_wrong(
        &rt,
        wrong_step(rt.alloc(), in_memory(rt.alloc())?, &ROOM)?,
        0,
    );
    Ok(())
}
