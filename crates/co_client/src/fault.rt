//! Why a search gives no answer.

ghost use Rattle.std.specs.Prelude.{◌≡◌};
ghost use Rattle.co_client.specs.declared.fault.SearchFault.TheVariants.{OutOfMemory};

use co_bucket::Numbers;
use co_link::Target;
use co_noise::TestFault;
use std::alloc::AllocError;
use thiserror::Error;

/// Why a search gives no answer.
#[derive(Debug, Drop, Error)]
pub enum SearchFault {
    /// The query has more than 16 distinct terms. Nothing was requested.
    #[error("{found} keywords, at most 16")]
    TooManyKeywords {
        found: u32,
    },
    /// The published bytes are none: the offset of the first field that is wrong or not whole.
    #[error("bad public {place}")]
    BadPublic {
        place: u64,
    },
    /// The published numbers leave no room for the noise.
    #[error("unfit parameters: {0}")]
    Test(TestFault),
    /// The hits can't be placed each in a bucket of its own. It comes after the last round.
    #[error("no placement")]
    NoPlacement {
        documents: Numbers,
        buckets: Numbers,
    },
    /// The link failed; its count of faults rose.
    #[error("link")]
    Link,
    /// The reply's status is not 200.
    #[error("refused {status}")]
    Refused {
        target: Target,
        status: u16,
    },
    /// The reply's body has another length, whose lesser is the place, or the offset of the first
    /// residue that is out of range.
    #[error("bad reply {place}")]
    BadReply {
        target: Target,
        place: u64,
    },
    /// A hit's record is that of another document.
    #[error("wrong record {wanted} {found}")]
    WrongRecord {
        wanted: u32,
        found: u32,
    },
    /// A hit's record names a place outside the bins.
    #[error("bad place {document}")]
    BadPlace {
        document: u32,
    },
    /// A coefficient of an opened reply is 65536, which is no two bytes.
    #[error("not a byte {reply} {place}")]
    NotByte {
        target: Target,
        reply: u32,
        place: u32,
    },
    /// A hit's record is none: the offset of its first fault.
    #[error("bad record {document} {place}")]
    BadRecord {
        document: u32,
        place: u32,
    },
    #[error("out of memory")]
    OutOfMemory,
}

impl From<AllocError> for SearchFault {
    ghost from_gives = { λ _ e. e ≡ OutOfMemory };

    fn from(_e: AllocError) -> SearchFault {
        SearchFault::OutOfMemory
    }
}
