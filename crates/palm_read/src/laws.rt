//! Laws of the language. A text has lines in one way, a token is the longest that fits, a domain has the values that it
//! writes, values are printed as one interval where they have no gap, no line has two forms, two readings or two refusals,
//! a line that is printed reads back as it was, and version 1 stays as it is.
ghost use Rattle.std.specs.Prelude.{◌≡◌, ◌≢◌, ◌⊎◌, ◌↔◌, ◌≤ℤ◌, ℕ, ℤ, pos, true, Some, List, [], ◌∷◌, All, Any, Contains, drop, flat_map, map};
ghost use Rattle.palm_base.specs.Ascending.{Ascends};
ghost use Rattle.palm_read.specs.declared.tokens.Token.{Token};
ghost use Rattle.palm_read.specs.Bounds.{IsOutside, IsWithin};
ghost use Rattle.palm_read.specs.Bytes.{is_plain};
ghost use Rattle.palm_read.specs.Domain.{Interval, Members, domain_of, range_text, set_of, set_text, values_in};
ghost use Rattle.palm_read.specs.declared.line.Line.{Line};
ghost use Rattle.palm_read.specs.declared.line.Line.TheVariants.{Header};
ghost use Rattle.palm_read.specs.declared.mode.Mode.{Mode};
ghost use Rattle.palm_read.specs.declared.mode.Mode.TheVariants.{First, One, Two};
ghost use Rattle.palm_read.specs.declared.parse.LineError.{LineError};
ghost use Rattle.palm_read.specs.declared.parse.LineError.TheVariants.{NoMemory};
ghost use Rattle.palm_read.specs.Form.{Form};
ghost use Rattle.palm_read.specs.Grammar.{IsForm};
ghost use Rattle.palm_read.specs.Interval.{HasAllBetween, domain_with, last_of, values_text};
ghost use Rattle.palm_read.specs.Limits.{IsBeyond, IsInRange, numbers};
ghost use Rattle.palm_read.specs.Lines.{AreLines, ended};
ghost use Rattle.palm_read.specs.Linear.{TermForm, term_of};
ghost use Rattle.palm_read.specs.Reading.{IsRead, IsRefusedBy, line_of};
ghost use Rattle.palm_read.specs.Text.{text_of};
ghost use Rattle.palm_read.specs.Token.{Lexeme, IsFirstToken, IsLongest, IsNoToken, lexeme_of};
ghost use Rattle.palm_read.specs.declared.limits.TheConstants.{GREATEST_NUMBER, GREATEST_TABU, GREATEST_WEIGHT, MOST_LINE_BYTES, MOST_NAME_BYTES, MOST_VALUES, NO_BUDGET};

/// The numbers of the limits on lines, names, domains and numbers.
pub fn limits_are_these_numbers()
    ensures line { MOST_LINE_BYTES ≡ 65536 }
    ensures name { MOST_NAME_BYTES ≡ 32 }
    ensures values { MOST_VALUES ≡ 256 }
    ensures number { GREATEST_NUMBER ≡ 1000000 }
    ensures tabu { GREATEST_TABU ≡ 1024 }
    ensures weight { GREATEST_WEIGHT ≡ 1000000 }
    ensures budget { NO_BUDGET ≡ 18446744073709551615 }
{}

/// A text has lines, and it has them in one way.
pub fn a_text_has_its_lines()
    ensures some { (text : List ℕ) → (lines : List (List ℕ)) × AreLines text lines }
    ensures once { (text : List ℕ) (a b : List (List ℕ)) → AreLines text a → AreLines text b → a ≡ b }
{}

/// A text of plain lines, each ended by a line feed, has these lines.
pub fn ended_lines_are_cut_apart()
    ensures { (lines : List (List ℕ)) → All (λ line. All (λ b. is_plain b ≡ true) line) lines → AreLines (flat_map ended lines) lines }
{}

/// A token is the longest text of the table that fits at its place; where none fits, it is one byte.
pub fn longest_token()
    ensures { (bytes : List ℕ) (from : ℕ) (token : Token) → IsFirstToken bytes from token
        → IsLongest (drop token.start bytes) (lexeme_of bytes token) ⊎ IsNoToken (drop token.start bytes) (lexeme_of bytes token) }
{}

/// A set in braces has exactly the values that are written, ascending.
pub fn set_of_what_is_written()
    ensures ascends { (values : List ℤ) → Ascends (values_in (domain_of (Members values))) }
    ensures same { (values : List ℤ) (v : ℤ) → Contains (values_in (domain_of (Members values))) v ↔ Contains values v }
{}

/// `LO..HI` has all whole numbers from LO to HI, and no others.
pub fn range_of_all_between()
    ensures { (low high v : ℤ) → low ≤ℤ high
        → Contains (values_in (domain_of (Interval low high))) v ↔ ((low ≤ℤ v) × (v ≤ℤ high)) }
{}

/// Ascending values print as `LO..HI` exactly where they are all whole numbers from the first to the last, and else in
/// braces. The domain that is printed has these values.
pub fn interval_printed_as_one()
    ensures interval { (v : ℤ) (vs : List ℤ) → Ascends (v ∷ vs) → HasAllBetween v vs → values_text (v ∷ vs) ≡ range_text v (last_of v vs) }
    ensures set { (v : ℤ) (vs : List ℤ) → Ascends (v ∷ vs) → (HasAllBetween v vs → ⊥) → values_text (v ∷ vs) ≡ set_text (v ∷ vs) }
    ensures same { (values : List ℤ) → values_in (domain_with values) ≡ values }
{}

/// Numbers are in range as they are written: where each number of the form is from its least to its greatest, and not where
/// one is below the least or above the greatest.
pub fn in_range_as_written()
    ensures within { (form : Form) → IsInRange (line_of form) ↔ All IsWithin (numbers form) }
    ensures outside { (form : Form) → (IsInRange (line_of form) → ⊥) ↔ Any IsOutside (numbers form) }
{}

/// What a line lacks is lacking as it is written: a set in braces is empty where no value is, and a coefficient is 0 where
/// 0 is. The names of a sum are those that are written.
pub fn lacking_as_written()
    ensures set { (values : List ℤ) → (set_of values ≡ []) ↔ (values ≡ []) }
    ensures factors { (terms : List TermForm) → Any (λ t. t.factor ≡ pos 0) (map term_of terms) ↔ Any (λ t. t.factor ≡ Some 0) terms }
    ensures names { (terms : List TermForm) → map (λ t. t.name) (map term_of terms) ≡ map (λ t. t.name) terms }
{}

/// No tokens are those of two forms.
pub fn one_form()
    ensures { (tokens : List Lexeme) (f g : Form) → IsForm tokens f → IsForm tokens g → f ≡ g }
{}

/// No bytes are read as two lines, not even in two modes.
pub fn one_reading()
    ensures { (m n : Mode) (bytes : List ℕ) (a b : Line) → IsRead m bytes a → IsRead n bytes b → a ≡ b }
{}

/// What is read is refused for want of memory alone.
pub fn read_or_refused()
    ensures { (mode : Mode) (bytes : List ℕ) (line : Line) (error : LineError)
        → IsRead mode bytes line → IsRefusedBy mode bytes error → error ≡ NoMemory }
{}

/// No bytes meet two refusals, want of memory aside.
pub fn one_refusal()
    ensures { (mode : Mode) (bytes : List ℕ) (d e : LineError)
        → IsRefusedBy mode bytes d → IsRefusedBy mode bytes e → d ≢ NoMemory → e ≢ NoMemory → d ≡ e }
{}

/// All bytes are read as a line or meet a refusal other than for want of memory.
pub fn each_line_answered()
    ensures { (mode : Mode) (bytes : List ℕ) → ((line : Line) × IsRead mode bytes line)
        ⊎ ((error : LineError) × (error ≢ NoMemory) × IsRefusedBy mode bytes error) }
{}

/// What is read and within the limits is printed so that it reads back in the same mode as the same line.
pub fn printed_lines_read_back()
    ensures { (mode : Mode) (bytes : List ℕ) (line : Line) → IsRead mode bytes line → (IsBeyond line → ⊥) → IsRead mode (text_of line) line }
{}

/// What version 1 reads, version 2 reads as the same line, and so does the first mode. The header is all that the first mode
/// reads beside, and it refuses all else as version 1 does.
pub fn version_1_stays()
    ensures two { (bytes : List ℕ) (line : Line) → IsRead One bytes line → IsRead Two bytes line }
    ensures first { (bytes : List ℕ) (line : Line) → IsRead One bytes line → IsRead First bytes line }
    ensures beside { (bytes : List ℕ) (line : Line) → IsRead First bytes line → line ≢ Header → IsRead One bytes line }
    ensures refused { (bytes : List ℕ) (error : LineError) → (IsRead First bytes Header → ⊥)
        → IsRefusedBy First bytes error ↔ IsRefusedBy One bytes error }
{}
