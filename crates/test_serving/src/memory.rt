//! A session whose memory is wanting at each request in turn: what the replies to it are then, and what stands after it.
ghost use Rattle.std.specs.Prelude.{◌≡◌};
ghost use Rattle.std.specs.List.{AllByRecursion};
ghost use Rattle.pfl_serve.specs.session.Passes.{IsPassOf};

use super::lab::{Spoken, entries, opened, replays, speak, speak_to_heap, take};
use pfl_run::{Ended, EngineFault};
use pfl_serve::{Closed, Lab, LabFault, Open, Opened, Pass, Which};
use std::alloc::Global;
use std::marker::Brand;
use std::sync::Wait;
use std::test::*;
use test_devices::{RefusesOne, Try, requests_of};

/// The first session's lines: each command, some of them where events were taken back or taken out, and what it asks besides.
const LINES: &[u8] = b"step main packet a out udp 10.0.0.1:1000 192.0.2.9:53 40\n\
    why main flush a\n\
    step main flush a\n\
    view\n\
    step main deliver 1\n\
    show main\n\
    past main 1\n\
    why main 1\n\
    why main lose 1\n\
    frame main 1\n\
    frame main 2\n\
    log main\n\
    names\n\
    back main 1\n\
    past main 3\n\
    why main 3\n\
    frame main 1\n\
    forward main 1\n\
    fork main 2 other\n\
    excise main 1\n\
    restore main\n\
    excise main 1\n\
    fork main 0 bare\n\
    step main packet a out udp 10.0.0.2:1000 192.0.2.9:53 40\n\
    excise main 9\n\
    drop other\n\
    follow 23\n";

/// How many lines these are.
const COUNT: u64 = 27;

/// The first answers: one state is sent in a frame of a header (20 bytes), a group's (4) and one record (124).
const FIRST: &[u8] = b"step pass 1.1 dropped 0\n\
    why main 2\n\
    event 2 step main flush a\n\
    outcome sent 1 148\n\
    end\n\
    step sent 1 148 dropped 0\n\
    view 3 1 2 2 1 0 1 0\n\
    step taken 1 dropped 0\n\
    branch main events 3 cursor 3\n";

/// The last answers: without the packet there is nothing to send and nothing to deliver. A view is no command, so the last excision is the
/// twenty-fourth.
const LAST: &[u8] = b"at 3\n\
    forked\n\
    excised 2 3\n\
    restored 3\n\
    excised 2 3\n\
    forked\n\
    step pass 1.1 dropped 0\n\
    refused 9 NoEvent\n\
    removed\n\
    following 23\n\
    entry 24 1 excise main 9\n\
    entry 25 1 drop other\n\
    followed 25\n";

/// How answers begin that have several lines, of which the last is `end`.
const LONG: [&str; 4] = ["branch ", "why ", "frame ", "log "];

/// No answer has begun that has not ended.
fn has_whole_answers(text: &str) -> bool {
    let mut is_within = false;
    for line in text.lines() {
        is_within = if is_within {
            line != "end"
        } else {
            LONG.iter().any(|first| line.starts_with(*first))
        };
    }
    !is_within
}

/// The text is a first part of the whole one that ends with an answer, or with a line of the one to `follow`.
fn ends_with_an_answer(whole: &[u8], text: &[u8]) -> bool {
    let Ok(text) = str::from_utf8(text) else {
        return false;
    };
    let at_line = text.is_empty() || text.ends_with("\n");
    at_line && whole.starts_with(text.as_bytes()) && has_whole_answers(text)
}

/// What came of the session, if it had the replies that it should have while one request was refused that came or not.
fn tried(whole: &[u8], spoken: &Spoken, came: bool) -> Option<Try> {
    let answered = spoken.is(whole, COUNT, 0);
    let wanting = spoken.result == Err(EngineFault::NoMemory);
    match (answered, came) {
        (true, true) => Some(Try::Spared),
        (true, false) => Some(Try::Whole),
        (false, true) if wanting && ends_with_an_answer(whole, &spoken.text) => Some(Try::Wanting),
        _ => None,
    }
}

/// The session had a reply to its line, which names `main` first.
fn is_named(spoken: &Spoken) -> bool {
    spoken.result == Ok(Ended { lines: 1, bad: 0 })
        && spoken.text.as_slice().starts_with(b"names main")
}

/// Both sessions have their replies, now that nothing is refused.
fn both_answered<'a, J: Which, R: Wait>(
    rt: &R,
    heap: Global,
    memory: &'a RefusesOne,
    lab: &Lab<J, &'a RefusesOne>,
    first: Pass<&'a RefusesOne>,
    second: Pass<&'a RefusesOne>,
) -> bool
    requires passes { IsPassOf J.publisher J.tallies first × IsPassOf J.publisher J.tallies second }
{
    let (other, _) = speak_to_heap(rt, heap, memory, lab, second, b"names\n", &Open);
    let (again, _) = speak_to_heap(rt, heap, memory, lab, first, b"names\n", &Open);
    is_named(&other) && is_named(&again)
}

/// The replies to the first session of two, while a request is refused, and whether it came, if both have their replies after it.
fn first_without<'a, J: Which, R: Wait>(
    rt: &R,
    heap: Global,
    memory: &'a RefusesOne,
    lab: &Lab<J, &'a RefusesOne>,
    passes: &mut Vec<Pass<&'a RefusesOne>, &'a RefusesOne>,
) -> Option<(Spoken, bool)>
    requires { AllByRecursion (IsPassOf J.publisher J.tallies) passes.old.items }
    ensures { AllByRecursion (IsPassOf J.publisher J.tallies) passes.new.items }
{
    let second = take::<J, _>(passes)?;
    let first = take::<J, _>(passes)?;
    let (spoken, first) = speak_to_heap(rt, heap, memory, lab, first, LINES, &Open);
    let came = memory.relent();
    let good = both_answered(rt, heap, memory, lab, first, second);
    if good { Some((spoken, came)) } else { None }
}

/// What is left of a lab whose first session is served so, and the replies to it.
fn closed_without<'a, J: Which, R: Wait>(
    rt: &R,
    heap: Global,
    memory: &'a RefusesOne,
    opened: Opened<&'a RefusesOne>,
) -> (Closed<&'a RefusesOne>, Option<(Spoken, bool)>)
    requires tables { (opened.publisher ≡ J.publisher) × (opened.tallies ≡ J.tallies) }
    requires opening { (opened.opening ≡ J.opening) × (opened.setup ≡ J.setup) × (opened.limit ≡ J.limit) }
{
    let (lab, mut passes) = opened.named::<J>();
    let told = first_without(rt, heap, memory, &lab, &mut passes);
    (lab.close(passes), told)
}

/// Opens a lab and serves a session of it while the `n`-th request is refused.
fn service_without<R: Wait>(
    rt: &R,
    heap: Global,
    memory: &RefusesOne,
    whole: &[u8],
    n: u64,
) -> Option<Try> {
    memory.refuse(n);
    let opened = match opened(memory, 2, 1000) {
        Ok(opened) => opened,
        Err(fault) => {
            let wanting = fault == LabFault::NoMemory && memory.relent();
            return wanting.then_some(Try::Wanting);
        }
    };
    let (closed, told) = closed_without::<Brand, _>(rt, heap, memory, opened);
    let (spoken, came) = told?;
    let journal = entries(heap, closed)?;
    if replays(heap, &journal) {
        tried(whole, &spoken, came)
    } else {
        None
    }
}

/// The replies to the only session of a new lab, where no request is refused.
fn unrefused<J: Which, R: Wait>(rt: &R, heap: Global, opened: Opened<Global>) -> Option<Spoken>
    requires tables { (opened.publisher ≡ J.publisher) × (opened.tallies ≡ J.tallies) }
    requires opening { (opened.opening ≡ J.opening) × (opened.setup ≡ J.setup) × (opened.limit ≡ J.limit) }
{
    let (lab, mut passes) = opened.named::<J>();
    let pass = take::<J, _>(&mut passes)?;
    Some(speak(rt, heap, &lab, pass, LINES, &Open).0)
}

/// Each request is refused in its turn, those that open the lab among them. Six are spared: without the first four the lines of the setup
/// are not kept, and a flush, and the question what would come of it, make do with less memory.
#[test]
fn each_request_of_a_service_is_refused_in_turn(rt: HostRuntime) -> Result<(), Fail> {
    let heap = rt.alloc();
    let opened = opened(heap, 1, 1000)?;
    let spoken = unrefused::<Brand, _>(&rt, heap, opened).ok_or("no pass")?;
    let whole = spoken.text.as_slice();
    assert!(rt; whole.starts_with(FIRST) && whole.ends_with(LAST));
    let memory = RefusesOne::new(heap);
    let requests = requests_of(|n| service_without(&rt, heap, &memory, whole, n));
    let good = requests.is_some_and(|all| all.wanted > 0 && all.spared == 6);
    assert!(rt; good, "{requests:?}");
    Ok(())
}
