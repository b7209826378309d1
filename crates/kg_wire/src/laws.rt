//! Laws of the grammar of requests.

ghost use Rattle.std.specs.Prelude.{◌≡◌, ℕ, ◌≤◌, List, [], ◌++◌, length};
ghost use Rattle.kg_message.specs.declared.header.Header.{Header as AHeader};
ghost use Rattle.kg_message.specs.declared.request.Request.{Request as ARequest};
ghost use Rattle.kg_wire.specs.ValidParts.{AreParts, IsReadBack};
ghost use Rattle.kg_wire.specs.Refusals.{IsBad, IsCut};
ghost use Rattle.kg_wire.specs.Messages.{most_head, most_body, Message, print_message, IsMessage, BeginsNoRequest, IsReading};

use crate::judge::MOST_HEAD;
use crate::reader::MOST_BODY;

/// Bytes are read as requests in one way.
pub fn messages_unique()
    // Of two readings the one of fewer requests is a front of the other.
    ensures front { (bytes : List ℕ) (ms ns : List Message) (rest more : List ℕ) → IsReading bytes ms rest → IsReading bytes ns more
        → length ms ≤ length ns → (later : List Message) × (ns ≡ ms ++ later) × IsReading rest later more }
    ensures same { (bytes : List ℕ) (ms ns : List Message) (rest more : List ℕ) → IsReading bytes ms rest → IsReading bytes ns more
        → length ms ≡ length ns → (ms ≡ ns) × (rest ≡ more) }
    ensures most { (bytes : List ℕ) (ms ns : List Message) (rest more : List ℕ) → IsReading bytes ms rest → IsReading bytes ns more
        → BeginsNoRequest rest → length ns ≤ length ms }
    ensures whole { (bytes : List ℕ) (ms ns : List Message) (rest more : List ℕ) → IsReading bytes ms rest → IsReading bytes ns more
        → BeginsNoRequest rest → BeginsNoRequest more → (ms ≡ ns) × (rest ≡ more) }
{}

/// No message is a proper front of another.
pub fn no_proper_front()
    ensures { (m n : Message) (more : List ℕ) → IsMessage m → IsMessage n → print_message m ++ more ≡ print_message n → more ≡ [] }
{}

/// What is refused stays refused whatever follows, is never a request that was cut off, and neither begins
/// with a request.
pub fn refusals_told_apart()
    ensures apart { (rest : List ℕ) → IsBad rest → IsCut rest → ⊥ }
    ensures stays { (rest more : List ℕ) → IsBad rest → IsBad (rest ++ more) }
    ensures bad { (rest : List ℕ) → IsBad rest → BeginsNoRequest rest }
    ensures cut { (rest : List ℕ) → IsCut rest → BeginsNoRequest rest }
    ensures none_bad { IsBad [] → ⊥ }
    ensures none_cut { IsCut [] → ⊥ }
{}

/// An upstream message that is printed from valid parts is a request, whatever follows it, and is read as
/// these parts.
pub fn printed_is_read()
    ensures { (method target host : List ℕ) (request : ARequest) (headers : List AHeader) → AreParts method target host request headers
        → (m : Message) × IsReadBack method target host request headers m }
{}

/// The limits of a head and of a body are those of the clauses.
pub fn limits_are_public()
    ensures head { MOST_HEAD ≡ most_head }
    ensures body { MOST_BODY ≡ most_body }
{}
