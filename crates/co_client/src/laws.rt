//! Facts on searches. Each function returns nothing: its contract is the fact.

ghost use Rattle.std.specs.Prelude.{◌≡◌, ℕ, List, Option, Result, Ok, IfOk, IfErr};
ghost use Rattle.rand_core.specs.Stream.{Stream};
ghost use Rattle.co_link.specs.declared.messages.Exchange.{Exchange};
ghost use Rattle.co_noise.specs.Shapes.{Numbers};
ghost use Rattle.co_noise.specs.Bounds.{test_of};
ghost use Rattle.co_text.specs.declared.found.Found.{Found};
ghost use Rattle.co_corpus.specs.declared.documents.Document.{Document};
ghost use Rattle.co_library.specs.declared.settings.Settings.{Settings};
ghost use Rattle.co_library.specs.Libraries.{Parts};
ghost use Rattle.co_rounds.specs.Honest.{AreHonest};
ghost use Rattle.co_rounds.specs.Plans.{FollowsPlan};
ghost use Rattle.co_rounds.specs.Recording.{IsLibraryFor};
ghost use Rattle.co_client.specs.declared.fault.SearchFault.{SearchFault};
ghost use Rattle.co_client.specs.Causes.{Search, Publishes, IsRead, IsCause, Asks};
ghost use Rattle.co_client.specs.Going.{GoesOn};
ghost use Rattle.co_client.specs.Plain.{AnswersPlainly};
ghost use Rattle.co_client.specs.Sure.{AreSure};

/// Over exchanges that are honest to the library of a corpus and settings, a search that asks as it
/// draws, goes on only where it may, and reads or refuses what the replies show answers plainly:
/// what plain search finds, or the witness that its hits can't be placed, or a refusal that no
/// reply's content brings about.
pub fn search_is_plain()
    ensures { (documents : List Document) (settings : Settings) (l : Parts) (held : Option (List ℕ))
        (r : Search) (es : List Exchange) (result : Result Found SearchFault) (left : Stream)
        → IsLibraryFor documents settings l → AreHonest l held es → FollowsPlan es → GoesOn r es
        → ((s : Numbers) (terms : List (List ℕ)) → Publishes es s terms → test_of s ≡ Ok s
        → Asks r es s terms result left)
        → IfOk result (IsRead r es) → IfErr result (IsCause r es)
        → AnswersPlainly documents settings l r.query r.pick result }
{}

/// And each ciphertext that such a search decrypts means its message, with twice its noise below q:
/// the published numbers passed the test.
pub fn search_decrypts_surely()
    ensures { (documents : List Document) (settings : Settings) (l : Parts) (held : Option (List ℕ))
        (r : Search) (es : List Exchange) (result : Result Found SearchFault) (left : Stream)
        → IsLibraryFor documents settings l → AreHonest l held es → FollowsPlan es → GoesOn r es
        → (s : Numbers) (terms : List (List ℕ)) → Publishes es s terms → test_of s ≡ Ok s
        → Asks r es s terms result left
        → AreSure r es s terms }
{}
