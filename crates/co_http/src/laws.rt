//! Facts on messages. Each function returns nothing: its contract is the fact.

ghost use Rattle.std.specs.Prelude.{◌≡◌, ℕ, List, Option};
ghost use Rattle.co_link.specs.declared.messages.Reply.{Reply};
ghost use Rattle.co_http.specs.Heads.{IsHead};
ghost use Rattle.co_http.specs.Replies.{IsReply};
ghost use Rattle.co_http.specs.declared.request_head.Head.{Head};

/// An input begins with one request's head at most, which ends at one place, whatever pieces it is
/// read in; where it has ended, there is none.
pub fn one_head()
    ensures { (input : List ℕ) (head other : Option Head) (rest after : List ℕ)
        → IsHead input head rest → IsHead input other after → (head ≡ other) × (rest ≡ after) }
{}

/// An input begins with one reply at most, whatever limits it is read within.
pub fn one_reply()
    ensures { (limit most : ℕ) (input : List ℕ) (reply other : Reply) (rest after : List ℕ)
        → IsReply limit input reply rest → IsReply most input other after → (reply ≡ other)
        × (rest ≡ after) }
{}
