//! What is left where memory is refused once, at any call.
use crate::calls::{Call, first_wrong, is_answered};
use crate::documents::{EMPTY, LIBRARY};
use sqlite::Alter;
use std::alloc::Global;
use xq_store::{Put, Store};

/// The calls that tell what stands under `b`.
type Held = &'static [Call];

const NOTHING: Held = &[Call::List(&[]), Call::Load("b", None)];

const A_LIBRARY: Held = &[Call::List(&["b"]), Call::Load("b", Some(LIBRARY))];

const AN_EMPTY: Held = &[Call::List(&["b"]), Call::Load("b", Some(EMPTY))];

/// Each kind of call, and what stands under `b` before it.
const STEPS: [(Call, Held); 5] = [
    (Call::Put("b", LIBRARY, Put::Stored), NOTHING),
    (Call::Put("b", EMPTY, Put::Replaced), A_LIBRARY),
    (Call::Put("b", LIBRARY, Put::Replaced), AN_EMPTY),
    (Call::Load("b", Some(LIBRARY)), A_LIBRARY),
    (Call::Drop("b", true), A_LIBRARY),
];

/// How a store came through.
#[derive(Clone, Copy)]
pub enum Fate {
    /// Each call was answered, at the second time where it was refused.
    Up,
    /// A call was answered wrongly, or a refusal left something.
    Wrong,
}

/// Makes each kind of call, until one is answered wrongly.
pub fn fate_of_calls<S: Alter>(alloc: Global, store: &mut Store<S>) -> Fate {
    for (call, before) in &STEPS {
        match fate_of_call(alloc, store, *call, *before) {
            Fate::Up => {}
            end => return end,
        }
    }
    Fate::Up
}

/// Where the call is refused, the documents are as they were and it succeeds when it is made
/// again.
fn fate_of_call<S: Alter>(alloc: Global, store: &mut Store<S>, call: Call, before: Held) -> Fate {
    match is_answered(alloc, store, call) {
        Ok(true) => Fate::Up,
        Ok(false) => Fate::Wrong,
        Err(_want) => fate_after_refusal(alloc, store, call, before),
    }
}

/// The fate of a call that was refused: up where the documents are as before, and it
/// succeeds when it is made again.
fn fate_after_refusal<S: Alter>(
    alloc: Global,
    store: &mut Store<S>,
    call: Call,
    before: Held,
) -> Fate {
    let is_as_before = matches!(first_wrong(alloc, store, before), Ok(0));
    if is_as_before && matches!(is_answered(alloc, store, call), Ok(true)) {
        Fate::Up
    } else {
        Fate::Wrong
    }
}
