//! Reading one message, and what it is answered by.
ghost use Rattle.std.specs.Prelude.{◌≡◌, ◌≤◌, None, Err, IfOk, IfSome, IsTrue, false};
ghost use Rattle.co_http.specs.Responses.{is_status};
ghost use Rattle.co_link.specs.Causes.{Rose};
ghost use Rattle.co_http.specs.Conn.{unread, kept, cannot_write};
ghost use Rattle.co_http.specs.Targets.{verb_for};
ghost use Rattle.co_serving.specs.Conversation.{closes, status_of, is_same, wrong_length, method_refusal, refusal};
ghost use Rattle.co_serving.specs.Reading.{ReadsRequest, ReadsNext, ReadsMessage, MayAnswer, KeepsNone};
ghost use Rattle.co_serving.specs.declared.ended.Ended.TheVariants.{ReadFault};
ghost use Rattle.co_serving.specs.declared.message.Message.TheVariants as messages;
ghost use Rattle.co_serving.specs.declared.response.Response.TheVariants as answers;

use crate::message::Message;
use crate::{Answering, Ended, Lengths, Response};
use co_http::{Conn, Head, HttpFault, Verb};
use co_link::{Request, Source, Target};
use std::alloc::Global;

// The method of a target.
fn method_of(target: Target) -> Verb
    ensures { result ≡ verb_for target }
{
    match target {
        Target::Public => Verb::Get,
        Target::Keys | Target::Score | Target::Meta | Target::Document => Verb::Post,
    }
}

// Whether the methods are one.
fn same_method(wanted: Verb, found: Verb) -> bool
    ensures { result ≡ is_same wanted found }
{
    match (wanted, found) {
        (Verb::Get, Verb::Get) | (Verb::Post, Verb::Post) | (Verb::Other, Verb::Other) => true,
        _ => false,
    }
}

// The refusal of a declared length that isn't the target's.
fn refuse_length(wanted: u64, found: u64) -> Option<Response>
    ensures refusal { result ≡ wrong_length wanted found }
    ensures status { IfSome result (λ answer. IsTrue (is_status (status_of answer))) }
{
    if found == wanted {
        return None;
    }
    Some(Response::WrongLength { wanted, found })
}

// What a message for a known target is refused by before its body is read.
fn refuse(wanted: u64, verb: Verb, head: &Head) -> Option<Response>
    ensures refusal { result ≡ method_refusal wanted verb head.now }
    ensures status { IfSome result (λ answer. IsTrue (is_status (status_of answer))) }
{
    if !same_method(verb, head.method) {
        return Some(Response::Refused { status: 405 });
    }
    match (verb, head.length) {
        (_, Some(found)) => refuse_length(wanted, found),
        (Verb::Post, None) => Some(Response::Refused { status: 411 }),
        (_, None) => refuse_length(wanted, 0),
    }
}

// Reads the body of a request for the target.
fn read_request<C: Source>(
    alloc: Global,
    conn: &mut Conn,
    line: &mut C,
    target: Target,
    length: u64,
) -> Result<Message, Ended>
    requires { kept conn.old ≡ None }
    ensures reads { ReadsRequest length target (unread conn.old (C.left line.old))
        (unread conn.new (C.left line.new)) (C.left line.new) result }
    ensures status { IfOk result MayAnswer }
    ensures kept { IfOk result (KeepsNone (kept conn.new)) }
    ensures writes { cannot_write conn.new ≡ cannot_write conn.old }
    ensures later { C.faults line.old ≤ C.faults line.new }
    ensures failed { result ≡ Err ReadFault → Rose (C.faults line.old) (C.faults line.new) }
    ensures beside { C.beside line.new ≡ C.beside line.old }
{
    let body = match conn.read_body(alloc, line, length) {
        Ok(body) => body,
        Err(HttpFault::EndOfInput) => return Err(Ended::Cut),
        Err(HttpFault::OutOfMemory) => return Ok(refused(503)),
        Err(HttpFault::ReadFault) => return Err(Ended::ReadFault),
        Err(HttpFault::BadHead | HttpFault::HeadTooLong | HttpFault::WriteFault) => {
            unreachable!("no fault of a body")
        }
    };
    Ok(Message::Asked {
        request: Request { target, body },
    })
}

// Reads the next message: a request for a service, or one that is answered without it.
fn next_message<C: Source, W: Lengths>(
    alloc: Global,
    lengths: &W,
    conn: &mut Conn,
    line: &mut C,
) -> Result<Message, Ended>
    requires { kept conn.old ≡ None }
    ensures reads { ReadsNext (W.wanted lengths.now) (unread conn.old (C.left line.old))
        (unread conn.new (C.left line.new)) (C.left line.new) result }
    ensures status { IfOk result MayAnswer }
    ensures kept { IfOk result (KeepsNone (kept conn.new)) }
    ensures writes { cannot_write conn.new ≡ cannot_write conn.old }
    ensures later { C.faults line.old ≤ C.faults line.new }
    ensures failed { result ≡ Err ReadFault → Rose (C.faults line.old) (C.faults line.new) }
    ensures beside { C.beside line.new ≡ C.beside line.old }
{
    let head = match conn.read_head(line) {
        Ok(Some(head)) => head,
        Ok(None) => return Err(Ended::Closed),
        Err(HttpFault::BadHead) => return Ok(refused(400)),
        Err(HttpFault::HeadTooLong) => return Ok(refused(431)),
        Err(HttpFault::EndOfInput) => return Err(Ended::Cut),
        Err(HttpFault::ReadFault) => return Err(Ended::ReadFault),
        Err(HttpFault::WriteFault | HttpFault::OutOfMemory) => unreachable!("no fault of a head"),
    };
    let Some(target) = head.target else {
        return Ok(refused(404));
    };
    let length = lengths.request_length(target);
    match refuse(length, method_of(target), &head) {
        Some(response) => Ok(Message::Refused { response }),
        None => read_request(alloc, conn, line, target, length),
    }
}

// A message that is answered by a status alone.
fn refused(status: u16) -> Message
    ensures { result ≡ messages.Refused (answers.Refused status) }
{
    Message::Refused {
        response: Response::Refused { status },
    }
}

/// Reads the next message and has it answered.
pub(crate) fn read_message<C: Source, A: Answering>(
    alloc: Global,
    answering: &mut A,
    conn: &mut Conn,
    line: &mut C,
) -> Result<Response, Ended>
    requires kept { kept conn.old ≡ None }
    requires ready { A.may_answer answering.old }
    ensures reads { ReadsMessage A.wanted A.answers answering.old answering.new
        (unread conn.old (C.left line.old)) (unread conn.new (C.left line.new)) (C.left line.new)
        result }
    ensures status { IfOk result (λ answer. IsTrue (is_status (status_of answer))) }
    ensures kept { IfOk result (λ answer. closes answer ≡ false → kept conn.new ≡ None) }
    ensures ready { A.may_answer answering.new }
    ensures writes { cannot_write conn.new ≡ cannot_write conn.old }
    ensures later { C.faults line.old ≤ C.faults line.new }
    ensures failed { result ≡ Err ReadFault → Rose (C.faults line.old) (C.faults line.new) }
    ensures beside { C.beside line.new ≡ C.beside line.old }
{
    match next_message(alloc, &*answering, conn, line)? {
        Message::Refused { response } => Ok(response),
        Message::Asked { request } => {
            let reply = answering.answer(&request);
            Ok(Response::Replied { reply })
        }
    }
}
