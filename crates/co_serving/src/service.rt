//! What answers the requests of one connection.
ghost use Rattle.std.specs.Prelude.{◌≡◌, ℕ, ⊤, IsTrue, length, []};
ghost use Rattle.co_link.specs.declared.messages.Target.{Target};
ghost use Rattle.co_link.specs.declared.messages.Request.{Request};
ghost use Rattle.co_link.specs.declared.messages.Reply.{Reply};
ghost use Rattle.co_serving.specs.Conversation.{is_reply_status};

use co_link::{Reply, Request, Target};

/// How long the bodies of requests are.
pub trait Lengths {
    /// The length of a request's body in bytes, by its target.
    ghost wanted: { Self → Target → ℕ };

    /// The length of a request's body in bytes.
    fn request_length(&self, target: Target) -> u64
        ensures { result ≡ wanted self.now target };
}

/// What answers the requests of one connection, one after another.
pub trait Service: Lengths {
    /// What a step may answer to a request of that length, and what it may leave.
    ghost steps: { Self → Request → Reply → Self → Type 0 };

    /// Answers a request whose body has that length. The reply is whole: its status is 200, 400,
    /// 409 or, for want of memory and with no body, 503.
    fn step(&mut self, request: &Request) -> Reply
        requires { length request.now.body ≡ Self.wanted self.old request.now.target }
        ensures step { steps self.old request.now result self.new }
        ensures status { IsTrue (is_reply_status result.status) }
        ensures empty { result.status ≡ 503 → result.body ≡ [] };
}

/// What answers the requests of one connection from a state on in which it may.
pub trait Answering: Lengths {
    /// What an answer to a request of that length may be, and what it may leave.
    ghost answers: { Self → Request → Reply → Self → Type 0 };

    /// It may answer.
    ghost may_answer: { Self → Type 0 };

    /// Answers a request whose body has that length. The reply is whole: its status is 200, 400,
    /// 409 or, for want of memory, 503. It may answer again.
    fn answer(&mut self, request: &Request) -> Reply
        requires length { length request.now.body ≡ Self.wanted self.old request.now.target }
        requires ready { may_answer self.old }
        ensures answer { answers self.old request.now result self.new }
        ensures status { IsTrue (is_reply_status result.status) }
        ensures ready { may_answer self.new };
}

// A service may always answer.
impl<S: Service> Answering for S {
    ghost answers = { λ s request reply t. S.steps s request reply t };

    ghost may_answer = { λ s. ⊤ };

    fn answer(&mut self, request: &Request) -> Reply {
        self.step(request)
    }
}
