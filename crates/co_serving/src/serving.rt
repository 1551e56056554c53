//! Serving one connection.
ghost use Rattle.std.specs.Prelude.{◌≡◌, ◌≤◌, ◌<◌, ◌+◌, None, Err, Some, false, true, IsTrue, IfOk, IfSome, length};
ghost use Rattle.co_link.specs.Causes.{Rose};
ghost use Rattle.co_http.specs.Conn.{held, unread, kept, cannot_write, first_fault};
ghost use Rattle.co_http.specs.ShortText.{text_of};
ghost use Rattle.co_http.specs.Responses.{is_status, Writes, WriteCause};
ghost use Rattle.co_serving.specs.Conversation.{Serves, closing_end, status_of, closing_status, length_text, most_responses, response_at};
ghost use Rattle.co_serving.specs.Reading.{ServesMessage, HaveCauses};
ghost use Rattle.co_serving.specs.declared.ended.Ended.TheVariants.{ReadFault, WriteFault};

use crate::reading::read_message;
use crate::{Answering, Ended, Response, Served, Service};
use co_http::{Conn, HttpFault, ShortText};
use co_link::{Duplex, Sink};
use std::alloc::Global;

// The most responses on one connection; the last of them closes it.
const MOST_RESPONSES: u32 = 1000;

// The text that says that a length is wrong.
fn say_length(wanted: u64, found: u64) -> ShortText
    ensures { text_of result ≡ length_text wanted found }
{
    let mut text = ShortText::new();
    text.push(b"length ");
    text.push_number(wanted, 20);
    text.push(b" ");
    text.push_number(found, 20);
    text.push(b"\n");
    text
}

// The status of an answer that closes.
fn status_if_closing(answer: &Response) -> Option<u16>
    ensures { result ≡ closing_status answer.now }
{
    match answer {
        Response::Refused { status } => Some(*status),
        Response::WrongLength { .. } => Some(400),
        Response::Replied { .. } => None,
    }
}

// Writes the response of an answer, before which `count` responses came.
fn write_answer<K: Sink>(
    conn: &mut Conn,
    sink: &mut K,
    answer: &Response,
    count: u32,
) -> Result<(), HttpFault>
    requires status { IsTrue (is_status (status_of answer.now)) }
    requires writes { cannot_write conn.old ≡ false }
    requires count { count < most_responses }
    ensures writes { Writes false (K.put_so_far sink.old) (K.put_so_far sink.new)
        (response_at count answer.now) result }
    ensures held { held conn.new ≡ held conn.old }
    ensures kept { kept conn.new ≡ first_fault (kept conn.old) result }
    ensures cause { WriteCause false (K.faults sink.old) (K.faults sink.new) result }
    ensures fails { IfOk result (λ u. cannot_write conn.new ≡ false) }
    ensures beside { K.beside sink.new ≡ K.beside sink.old }
{
    let is_last = count + 1 == MOST_RESPONSES;
    match answer {
        Response::Refused { status } => conn.write_response(sink, *status, true, b""),
        Response::WrongLength { wanted, found } => {
            let text = say_length(*wanted, *found);
            conn.write_response(sink, 400, true, text.as_slice())
        }
        Response::Replied { reply } => {
            conn.write_response(sink, reply.status, is_last, reply.body.as_slice())
        }
    }
}

// Reads the next message, has it answered and writes the response, before which `count` responses
// came. It gives the status of a response that closes.
fn serve_next<C: Duplex, A: Answering>(
    alloc: Global,
    answering: &mut A,
    conn: &mut Conn,
    line: &mut C,
    count: u32,
) -> Result<Option<u16>, Ended>
    requires ready { A.may_answer answering.old }
    requires kept { kept conn.old ≡ None }
    requires writes { cannot_write conn.old ≡ false }
    requires count { count < most_responses }
    ensures serves { ServesMessage A.wanted A.answers answering.old answering.new
        (unread conn.old (C.left line.old)) (unread conn.new (C.left line.new)) (C.left line.new)
        (C.put_so_far line.old) (C.put_so_far line.new) count result }
    ensures ready { A.may_answer answering.new }
    ensures kept { IfOk result (λ closing. closing ≡ None → kept conn.new ≡ None) }
    ensures writes { IfOk result (λ closing. cannot_write conn.new ≡ false) }
    ensures takes_later { C.Source.faults line.old ≤ C.Source.faults line.new }
    ensures puts_later { C.Sink.faults line.old ≤ C.Sink.faults line.new }
    ensures read_fault { result ≡ Err ReadFault
        → Rose (C.Source.faults line.old) (C.Source.faults line.new) }
    ensures write_fault { result ≡ Err WriteFault
        → Rose (C.Sink.faults line.old) (C.Sink.faults line.new) }
    ensures beside { C.Duplex.beside line.new ≡ C.Duplex.beside line.old }
{
    let answer = read_message(alloc, answering, conn, line)?;
    match write_answer(conn, line, &answer, count) {
        Ok(()) => Ok(status_if_closing(&answer)),
        Err(_) => Err(Ended::WriteFault),
    }
}

// How a connection ends with a response of this status that closes it, `requests` responses having
// been written.
fn closed_by(requests: u32, status: u16) -> Ended
    ensures { result ≡ closing_end requests status }
{
    if requests == MOST_RESPONSES {
        return Ended::Spent;
    }
    Ended::Refused { status }
}

/// Serves one connection. Each message of its input is answered in order, whatever pieces the input
/// comes in: by a refusal, or by what may answer. It ends with the input, with the first response
/// that closes, with the 1,000th response, or where taking or putting fails.
pub fn serve_by<C: Duplex, A: Answering>(alloc: Global, answering: &mut A, line: &mut C) -> Served
    requires { A.may_answer answering.old }
    ensures serves { IfSome (C.left line.old) (λ input. IfSome (C.put_so_far line.old) (λ put.
        Serves A.wanted A.answers answering.old answering.new input (C.left line.new) put
        (C.put_so_far line.new) result.requests result.ended)) }
    ensures requests { result.requests ≤ most_responses }
    ensures causes { HaveCauses result.ended (C.Source.faults line.old) (C.Source.faults line.new)
        (C.Sink.faults line.old) (C.Sink.faults line.new) }
    ensures beside { C.Duplex.beside line.new ≡ C.Duplex.beside line.old }
{
    let Ok(mut conn) = Conn::new(alloc) else {
        return Served {
            requests: 0,
            ended: Ended::OutOfMemory,
        };
    };
    let mut requests = 0;
    'serving: while requests < MOST_RESPONSES {
        match serve_next(alloc, answering, &mut conn, line, requests) {
            Ok(None) => requests += 1,
            Ok(Some(status)) => {
                return Served {
                    requests: requests + 1,
                    ended: closed_by(requests + 1, status),
                };
            }
            Err(ended) => return Served { requests, ended },
        }
    }
    Served {
        requests,
        ended: Ended::Spent,
    }
}

/// Serves one connection by a service, which may answer from any state on.
pub fn serve_service<C: Duplex, S: Service>(alloc: Global, service: &mut S, line: &mut C) -> Served
    ensures serves { IfSome (C.left line.old) (λ input. IfSome (C.put_so_far line.old) (λ put.
        Serves S.wanted S.steps service.old service.new input (C.left line.new) put
        (C.put_so_far line.new) result.requests result.ended)) }
    ensures requests { result.requests ≤ most_responses }
    ensures read_fault { result.ended ≡ ReadFault
        → Rose (C.Source.faults line.old) (C.Source.faults line.new) }
    ensures write_fault { result.ended ≡ WriteFault
        → Rose (C.Sink.faults line.old) (C.Sink.faults line.new) }
    ensures beside { C.Duplex.beside line.new ≡ C.Duplex.beside line.old }
    ensures takes_later { C.Source.faults line.old ≤ C.Source.faults line.new }
    ensures puts_later { C.Sink.faults line.old ≤ C.Sink.faults line.new }
{
    serve_by(alloc, service, line)
}
