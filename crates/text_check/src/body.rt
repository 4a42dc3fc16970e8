//! What a family of texts has besides the variables and constraints that all of them list.
ghost use Rattle.std.specs.Prelude.{◌≡◌, ℕ, ℤ, [], List, IfOk, OnOk};
ghost use Rattle.palm_base.specs.Tells.{Tells};
ghost use Rattle.palm_book.specs.Book.{Contents, with_listed, with_variable};
ghost use Rattle.palm_claim.specs.Own.{family_of};
ghost use Rattle.palm_claim.specs.Taking.{TakesStatement};
ghost use Rattle.palm_claim.specs.declared.statement.Statement.TheVariants as Statement;
ghost use Rattle.palm_model.specs.declared.constraint.Con.{Con};
ghost use Rattle.palm_read.specs.Reader.Held.{Gives};
ghost use Rattle.text_check.specs.Kept.{AreKept};

use palm_base::NoMemory;
use palm_book::Book;
use palm_claim::Cause;
use palm_listed::Listed;
use palm_read::{Cursor, LineError};
use std::alloc::Global;

/// The first cause of a line, if it has one, unless memory runs out.
pub type FirstCause = Result<Option<Cause>, NoMemory>;

/// What is kept of a text of one family besides what it lists, and what the phrases of the family are.
pub trait Body: Sized + Drop {
    ghost use Rattle.palm_book.specs.Book.{Contents};
    ghost use Rattle.palm_claim.specs.Own.{Own};
    ghost use Rattle.palm_claim.specs.Phrases.{ArePhrases};

    /// What only lines of these texts say.
    type Phrase: Drop;

    /// The verdict on such a text.
    type Verdict;

    /// A part of such a text.
    ghost Text: { Type 0 };

    /// What is the family's own.
    ghost own: { Own Self.Text Self.Phrase Self.Verdict };

    /// The text before its first line.
    ghost blank: { Self.Text };

    /// What was said so far, by what is listed and what is kept.
    ghost draft: { Contents → Self → Self.Text };

    /// What holds of it between lines.
    ghost keeps: { Contents → Self → Type 0 };

    /// Reads a phrase from the front of the tokens.
    fn read(cursor: &mut Cursor<'_>, alloc: Global) -> Result<Self::Phrase, LineError>
        ensures { Gives (λ phrase. phrase) result cursor.new (own.phrases.phrase_at cursor.old) };

    /// No line was read.
    fn new(alloc: Global) -> Self
        ensures blank { draft (record { variables = []; constraints = [] }) result ≡ blank }
        ensures kept { keeps (record { variables = []; constraints = [] }) result };

    /// Whether a variable may stand behind the lines so far.
    fn may_declare(&self) -> bool
        ensures { (book : Contents) → Tells result (own.MayDeclare (draft book self.now)) };

    /// Whether a constraint may.
    fn may_list(&self) -> bool
        ensures { (book : Contents) → Tells result (own.MayList (draft book self.now)) };

    /// Whether the phrase may.
    fn may_follow(&self, phrase: &Self::Phrase) -> bool
        ensures { (book : Contents) → Tells result (own.MayFollow (draft book self.now) phrase.now) };

    /// Goes on behind a variable.
    fn declared(&mut self) -> Result<(), NoMemory>
        ensures said { OnOk result ((before after : Contents) → draft after self.new ≡ own.declared (draft before self.old) after) }
        ensures kept { OnOk result ((book : Contents) (name : List ℕ) (values : List ℤ) → keeps book self.old
            → keeps (with_variable book name values) self.new) };

    /// Goes on behind a constraint.
    fn listed(&mut self)
        ensures said { (before after : Contents) → draft after self.new ≡ own.listed (draft before self.old) after }
        ensures kept { (book : Contents) (name : List ℕ) (con : Con) → keeps book self.old → keeps (with_listed book name con) self.new };

    /// Takes a phrase that may stand there, or answers its first cause.
    fn take(&mut self, alloc: Global, listed: &mut Listed, phrase: Self::Phrase) -> FirstCause
        requires stands { own.MayFollow (draft listed.old.book self.old) phrase }
        requires range { own.phrases.AreInRange phrase }
        requires kept { AreKept keeps listed.old self.old }
        ensures takes { IfOk result (λ cause. TakesStatement (family_of own) (draft listed.old.book self.old) (Statement.Phrase phrase) cause
            (draft listed.new.book self.new)) }
        ensures kept { OnOk result (AreKept keeps listed.new self.new) };

    /// The verdict where no line is left, and a next one would have this number.
    fn ending(self, book: Book, line: u64) -> Self::Verdict
        ensures { result ≡ own.ending (draft book self) line };

    /// The verdict where the line with this number has this first cause.
    fn refused(line: u64, cause: Cause) -> Self::Verdict
        ensures { result ≡ own.refused line cause };

    /// The phrases are read as they are spelled.
    ghost are_phrases: { ArePhrases own.phrases };

    /// What is listed is the book of what was said.
    ghost of_book: { (book : Contents) (body : Self) → own.book (draft book body) ≡ book };
}
