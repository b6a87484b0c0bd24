ghost use Rattle.std.specs.Prelude.{◌≡◌, ◌<◌, ◌^◌, ◌∷◌, decimal, IfSome, MatchResult};
ghost use Rattle.rr_code.specs.Line.{IsLine, SpellsLine, line_words, read_line_words, read_stamped};
ghost use Rattle.rr_words.specs.Line.{words_of};

use crate::command::Command;
use crate::fault::Fault;
use crate::query::Query;
use crate::request::request_named;
use rr_orders::scan::{Words, next_table, read_corp};
use rr_roster::Corp;
use rr_turns::Request;
use rr_words::{Name, number};

/// A line that a user sends.
#[derive(Debug, Drop, PartialEq, Eq)]
pub enum Line<'a> {
    /// What is asked of a table, with the stamp by which it is told from the request before it.
    Request {
        stamp: u64,
        table: Name,
        request: Request<Command<'a>>,
    },
    /// A question.
    Query(Query),
    /// The best run of a corporation is to be found, and played as its run. No table keeps such a request, and no
    /// record holds it: what is kept is the run.
    Best {
        stamp: u64,
        table: Name,
        corp: Corp,
    },
}

impl<'a> Line<'a> {
    /// Reads a line, without the line feed at its end.
    ///
    /// # Errors
    /// `Malformed` where the bytes have none of the forms.
    pub fn read(line: &'a [u8]) -> Result<Line<'a>, Fault>
        ensures found { MatchResult result (λ l. SpellsLine line.now l) (λ fault. fault ≡ Fault.Malformed) }
        ensures only { (l : Line) → SpellsLine line.now l → result ≡ Ok l }
    {
        match Line::from_words(line) {
            Some(line) => Ok(line),
            None => Err(Fault::Malformed),
        }
    }

    fn from_words(line: &'a [u8]) -> Option<Line<'a>>
        ensures exact { result ≡ read_line_words (words_of line.now) }
        ensures found { IfSome result (λ l. IsLine l × (words_of line.now ≡ line_words l)) }
    {
        let mut words = Words::of(line);
        match number(words.next()?) {
            Some(stamp) => read_stamped(stamp, &mut words),
            None => {
                let query = Query::from_words(&mut Words::of(line))?;
                Some(Line::Query(query))
            }
        }
    }
}

// Behind a stamp and the name of a table stands `best` with a corporation, or a request.
fn read_stamped<'a>(stamp: u64, words: &mut Words<'a>) -> Option<Line<'a>>
    requires { stamp < 10 ^ 10 }
    ensures exact { result ≡ read_stamped stamp words.old }
    ensures found { IfSome result (λ l. IsLine l × (decimal stamp ∷ words.old ≡ line_words l)) }
{
    let table = next_table(words)?;
    let head = words.next()?;
    if head == b"best".as_slice() {
        let corp = read_corp(words.last()?)?;
        return Some(Line::Best { stamp, table, corp });
    }
    let request = request_named(head, words)?;
    Some(Line::Request {
        stamp,
        table,
        request,
    })
}
