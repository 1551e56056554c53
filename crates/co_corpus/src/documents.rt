//! Documents, and lists of them that make a corpus.
ghost use Rattle.std.specs.Prelude.{◌≡◌};
ghost use Rattle.co_corpus.specs.Documents.{IsCorpus};

use co_link::Bytes;
use co_list::Listed;
use co_text::Title;
use std::marker::Model;

/// A title, as its type keeps it, and a text.
#[derive(Debug, Drop)]
pub struct Document {
    /// The title.
    pub title: Title,
    /// The bytes of the text, which are UTF-8.
    pub text: Bytes,
}

/// Documents in a row.
pub type Documents = Listed<Document>;

/// 1 to 65,536 documents, each text UTF-8 of at most 4,194,304 bytes. A document's number is its
/// place, from 0.
#[derive(Debug, Drop)]
pub struct Corpus {
    inner: Documents,
}

impl Model for Corpus {
    ghost use Rattle.std.specs.Prelude.{List};
    ghost use Rattle.co_corpus.specs.declared.documents.Document.{Document};
    ghost use Rattle.co_corpus.specs.Documents.{IsCorpus};

    ghost Value = { List Document };

    ghost view = { λ c. c.inner };

    ghost invariant = { λ c. IsCorpus c.inner };
}

impl Corpus {
    /// The corpus of these documents, with no copy.
    pub fn new(documents: Documents) -> Self
        requires { IsCorpus documents }
        ensures { result ≡ documents }
    {
        Corpus { inner: documents }
    }

    /// The documents in order.
    pub fn as_slice(&self) -> &[Document]
        ensures value { result.now ≡ self.now }
        ensures corpus { IsCorpus self.now }
    {
        self.inner.as_slice()
    }
}
