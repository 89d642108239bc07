// A reply as numbers, and back.
#![tactic(auto)]

ghost use Rattle.std.specs.Prelude.{◌≡◌};
ghost use Rattle.state.specs.Reply.{ReplyWithin};
ghost use Rattle.answers.specs.Answer.{kind_number, AnswersWith, AnswerFits, Replies};

use state::Core;
use state::reply::Reply;
use words::pointer::Pointer;

// The sort of an answer. As a number, what C gets.
#[derive(Clone, Copy, PartialEq, Eq)]
pub enum Kind {
    Refused = 0,
    Spent = 1,
    Halted = 2,
    Fault = 3,
}

impl From<Kind> for u32 {
    ghost from_gives = { λ kind n. n ≡ kind_number kind };

    fn from(kind: Kind) -> u32 {
        kind as u32
    }
}

// An answer as numbers, and the core after it; what a kind leaves free is 0. A single step is spent where it completes. Numbers that C
// gets side by side stand apart here: else the compiler loads both at once where they were stored one by one just before, and waits
// for it.
// Stays: a kind is its number, of 64 bits as the others are: a `Kind` would leave padding, which costs a single step (docs/PERFORMANCE.md).
#[derive(Clone, Copy)]
pub struct Answered {
    pub kind: u64,
    pub core: Core,
    pub number: u64,
    pub pointer: Pointer,
    pub count: u64,
    pub pointers: u64,
}

pub fn answer_of(reply: Reply, core: Core, pointers: u64) -> Answered
    requires { ReplyWithin reply }
    ensures { AnswersWith reply core pointers result }
{
    let free = Answered {
        kind: Kind::Refused as u64,
        core,
        number: 0,
        pointer: Pointer::default(),
        count: 0,
        pointers,
    };
    match reply {
        Reply::Refused(n) => Answered {
            number: n as u64,
            ..free
        },
        Reply::Spent(count) => Answered {
            kind: Kind::Spent as u64,
            count: count as u64,
            ..free
        },
        Reply::Halted(count) => Answered {
            kind: Kind::Halted as u64,
            count: count as u64,
            ..free
        },
        Reply::Fault(n, count, pointer) => Answered {
            kind: Kind::Fault as u64,
            number: n as u64,
            pointer,
            count: count as u64,
            ..free
        },
    }
}

// The reply that the numbers stand for.
pub fn reply_of(x: Answered) -> Reply
    requires { AnswerFits x }
    ensures { Replies x result }
{
    match x.kind {
        0 => Reply::Refused(x.number as u8),
        1 => Reply::Spent(x.count as u32),
        2 => Reply::Halted(x.count as u32),
        _ => Reply::Fault(x.number as u8, x.count as u32, x.pointer),
    }
}
