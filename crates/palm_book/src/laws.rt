//! Laws of books.
ghost use Rattle.std.specs.Prelude.{◌≡◌};
ghost use Rattle.palm_base.specs.Order.{Rises};
ghost use Rattle.palm_model.specs.Log.{cids_of};
ghost use Rattle.palm_book.specs.Book.{Contents, IsBook, active_of};
ghost use Rattle.palm_book.specs.declared.limits.TheConstants.{MOST_ADDED, MOST_CONSTRAINTS, MOST_CONSTRAINTS_IN_ONE, MOST_VARIABLES, MOST_VARIABLES_IN_ONE};

/// The numbers of the limits of a book.
pub fn limits_are_these_numbers()
    ensures variables { MOST_VARIABLES ≡ 128 }
    ensures constraints { MOST_CONSTRAINTS ≡ 512 }
    ensures variables_in_one { MOST_VARIABLES_IN_ONE ≡ 64 }
    ensures constraints_in_one { MOST_CONSTRAINTS_IN_ONE ≡ 256 }
    ensures added { MOST_ADDED ≡ 65535 }
{}

/// The active constraints of a book stand under rising ids.
pub fn active_constraints_rise()
    ensures rise { (book : Contents) → IsBook book → Rises (cids_of (active_of book)) }
{}
