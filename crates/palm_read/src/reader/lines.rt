//! The forms of a line.
ghost use Rattle.std.specs.Prelude.{◌≡◌, ◌&&◌, codes};
ghost use Rattle.std.specs.Str.{bytes_eq};
ghost use Rattle.palm_read.specs.Domain.{DomainForm, domain_of};
ghost use Rattle.palm_read.specs.Reader.Held.{Gives, held_domain, held_line};
ghost use Rattle.palm_read.specs.Reader.Lines.{declare_at, declare_in_at, header_at, add_at, named_at, numbered_at, pair_at, query_at, choice_at, drop_at, dbt_at, repair_at, solve_at, prove_at, minimize_at, prefer_at, bare_at, search_form_at, line_at};
ghost use Rattle.palm_read.specs.Reader.Steps.{is_empty};
ghost use Rattle.palm_read.specs.Form as form;

use crate::limits::{GREATEST_NUMBER, GREATEST_TABU, GREATEST_WEIGHT, NO_BUDGET};
use crate::line::{DomainText, Line, Name};
use crate::parse::LineError;
use crate::reader::cursor::Cursor;
use std::alloc::Global;

impl<'a> Cursor<'a> {
    /// Reads a form by its first word.
    #[tactic(auto, unfolding(crate::specs::Reader::Lines::line_at, crate::specs::Reader::Steps::when))]
    pub(crate) fn line(&mut self, alloc: Global) -> Result<Line, LineError>
        ensures { Gives held_line result self.new (line_at self.old) }
    {
        if self.takes_word(b"var") {
            self.declare(alloc)
        } else if self.takes_word(b"add") {
            self.add(alloc)
        } else if self.takes_word(b"relax") {
            self.relax(alloc)
        } else if self.takes_word(b"enforce") {
            self.enforce(alloc)
        } else if self.takes_word(b"retract") {
            self.retract(alloc)
        } else if self.takes_word(b"prefer") {
            self.prefer(alloc)
        } else if self.takes_word(b"domain") {
            self.domain_of(alloc)
        } else if self.takes_word(b"why") {
            self.why(alloc)
        } else if self.takes_word(b"minimal") {
            self.minimal(alloc)
        } else if self.takes_word(b"cert") {
            self.cert(alloc)
        } else if self.takes_word(b"step") {
            self.step()
        } else if self.takes_word(b"palm") {
            self.header()
        } else {
            self.search_form(alloc)
        }
    }

    /// Reads a form of a search, of a guide or an order, or of one word.
    #[tactic(auto, unfolding(crate::specs::Reader::Lines::search_form_at, crate::specs::Reader::Steps::when))]
    fn search_form(&mut self, alloc: Global) -> Result<Line, LineError>
        ensures { Gives held_line result self.new (search_form_at self.old) }
    {
        if self.takes_word(b"solve") {
            self.solve()
        } else if self.takes_word(b"prove") {
            self.prove()
        } else if self.takes_word(b"minimize") {
            self.minimize(alloc)
        } else if self.takes_word(b"guide") {
            self.guide()
        } else if self.takes_word(b"order") {
            self.order()
        } else if self.takes_word(b"drop") {
            self.drop_object()
        } else {
            self.bare()
        }
    }

    /// Reads a form of one word.
    #[tactic(auto, unfolding(crate::specs::Reader::Lines::bare_at, crate::specs::Reader::Steps::when))]
    fn bare(&mut self) -> Result<Line, LineError>
        ensures { Gives held_line result self.new (bare_at self.old) }
    {
        if self.takes_word(b"domains") {
            Ok(Line::Domains)
        } else if self.takes_word(b"list") {
            Ok(Line::List)
        } else if self.takes_word(b"log") {
            Ok(Line::Log)
        } else if self.takes_word(b"conflict") {
            Ok(Line::Conflict)
        } else if self.takes_word(b"pause") {
            Ok(Line::Pause)
        } else if self.takes_word(b"resume") {
            Ok(Line::Resume)
        } else if self.takes_word(b"preferred") {
            Ok(Line::Preferred)
        } else if self.takes_word(b"quit") {
            Ok(Line::Quit)
        } else {
            Err(LineError::Form)
        }
    }

    /// Reads the digit of the header.
    #[tactic(auto, unfolding(crate::specs::Reader::Lines::header_at, crate::specs::Reader::Steps::and_then))]
    fn header(&mut self) -> Result<Line, LineError>
        ensures { Gives held_line result self.new (header_at self.old) }
    {
        if self.takes_digits(b"2") {
            Ok(Line::Header)
        } else {
            Err(LineError::Form)
        }
    }

    #[tactic(auto, unfolding(crate::specs::Reader::Lines::declare_at, crate::specs::Reader::Steps::when, crate::specs::Reader::Steps::and_then))]
    fn declare(&mut self, alloc: Global) -> Result<Line, LineError>
        ensures { Gives held_line result self.new (declare_at self.old) }
    {
        let name = self.owned_name(alloc)?;
        let domain = self.domain(alloc)?;
        if self.takes_word(b"in") {
            return self.declare_in(alloc, name, domain);
        }
        Ok(Line::Var { name, domain })
    }

    /// Reads the domain behind a universe and `in`.
    #[tactic(auto, unfolding(crate::specs::Reader::Lines::declare_in_at, crate::specs::Reader::Steps::and_then))]
    fn declare_in(
        &mut self,
        alloc: Global,
        name: Name,
        universe: DomainText,
    ) -> Result<Line, LineError>
        ensures { (form : DomainForm) → universe ≡ domain_of (held_domain form) → Gives held_line result self.new (declare_in_at name form self.old) }
    {
        let domain = self.domain(alloc)?;
        Ok(Line::VarIn {
            name,
            universe,
            domain,
        })
    }

    #[tactic(auto, unfolding(crate::specs::Reader::Lines::add_at, crate::specs::Reader::Steps::and_then))]
    fn add(&mut self, alloc: Global) -> Result<Line, LineError>
        ensures { Gives held_line result self.new (add_at self.old) }
    {
        let name = self.owned_name(alloc)?;
        self.sign(b":")?;
        let shape = self.shape(alloc)?;
        Ok(Line::Add { name, shape })
    }

    #[tactic(auto, unfolding(crate::specs::Reader::Lines::named_at, crate::specs::Reader::Steps::and_then))]
    fn relax(&mut self, alloc: Global) -> Result<Line, LineError>
        ensures { Gives held_line result self.new (named_at form.RelaxForm self.old) }
    {
        Ok(Line::Relax(self.owned_name(alloc)?))
    }

    #[tactic(auto, unfolding(crate::specs::Reader::Lines::named_at, crate::specs::Reader::Steps::and_then))]
    fn enforce(&mut self, alloc: Global) -> Result<Line, LineError>
        ensures { Gives held_line result self.new (named_at form.EnforceForm self.old) }
    {
        Ok(Line::Enforce(self.owned_name(alloc)?))
    }

    #[tactic(auto, unfolding(crate::specs::Reader::Lines::named_at, crate::specs::Reader::Steps::and_then))]
    fn retract(&mut self, alloc: Global) -> Result<Line, LineError>
        ensures { Gives held_line result self.new (named_at form.RetractForm self.old) }
    {
        Ok(Line::Retract(self.owned_name(alloc)?))
    }

    #[tactic(auto, unfolding(crate::specs::Reader::Lines::prefer_at, crate::specs::Reader::Lines::choice_at, crate::specs::Reader::Lines::numbered_at, crate::specs::Reader::Steps::when, crate::specs::Reader::Steps::and_then))]
    fn prefer(&mut self, alloc: Global) -> Result<Line, LineError>
        ensures { Gives held_line result self.new (prefer_at self.old) }
    {
        let name = self.owned_name(alloc)?;
        if self.takes_word(b"none") {
            return Ok(Line::PreferNone(name));
        }
        let weight = self.counted(GREATEST_WEIGHT)? as u32;
        Ok(Line::Prefer { name, weight })
    }

    #[tactic(auto, unfolding(crate::specs::Reader::Lines::named_at, crate::specs::Reader::Steps::and_then))]
    fn domain_of(&mut self, alloc: Global) -> Result<Line, LineError>
        ensures { Gives held_line result self.new (named_at form.DomainOfForm self.old) }
    {
        Ok(Line::Domain(self.owned_name(alloc)?))
    }

    #[tactic(auto, unfolding(crate::specs::Reader::Lines::pair_at, crate::specs::Reader::Steps::and_then))]
    fn why(&mut self, alloc: Global) -> Result<Line, LineError>
        ensures { Gives held_line result self.new (pair_at form.WhyForm self.old) }
    {
        let name = self.owned_name(alloc)?;
        let value = self.value()?;
        Ok(Line::Why { name, value })
    }

    #[tactic(auto, unfolding(crate::specs::Reader::Lines::query_at, crate::specs::Reader::Steps::choose, crate::specs::Reader::Steps::and_then))]
    fn minimal(&mut self, alloc: Global) -> Result<Line, LineError>
        ensures { Gives held_line result self.new (query_at form.MinimalConflictForm form.MinimalForm self.old) }
    {
        let Some(name) = self.name() else {
            return Err(LineError::Form);
        };
        if self.ends_conflict(name) {
            return Ok(Line::MinimalConflict);
        }
        let value = self.value()?;
        let name = Name::from_slice(alloc, name)?;
        Ok(Line::Minimal { name, value })
    }

    #[tactic(auto, unfolding(crate::specs::Reader::Lines::query_at, crate::specs::Reader::Steps::choose, crate::specs::Reader::Steps::and_then))]
    fn cert(&mut self, alloc: Global) -> Result<Line, LineError>
        ensures { Gives held_line result self.new (query_at form.CertConflictForm form.CertForm self.old) }
    {
        let Some(name) = self.name() else {
            return Err(LineError::Form);
        };
        if self.ends_conflict(name) {
            return Ok(Line::CertConflict);
        }
        let value = self.value()?;
        let name = Name::from_slice(alloc, name)?;
        Ok(Line::Cert { name, value })
    }

    /// Whether this word is `conflict`, and no token is left behind it.
    fn ends_conflict(&self, word: &[u8]) -> bool
        ensures { result ≡ (bytes_eq word.now (codes "conflict") && is_empty self.now) }
    {
        word == b"conflict".as_slice() && self.is_at_end()
    }

    #[tactic(auto, unfolding(crate::specs::Reader::Lines::numbered_at, crate::specs::Reader::Steps::and_then))]
    fn step(&mut self) -> Result<Line, LineError>
        ensures { Gives held_line result self.new (numbered_at form.StepForm self.old) }
    {
        Ok(Line::Step(self.counted(GREATEST_NUMBER)?))
    }

    #[tactic(auto, unfolding(crate::specs::Reader::Lines::choice_at, crate::specs::Reader::Lines::numbered_at, crate::specs::Reader::Steps::when, crate::specs::Reader::Steps::and_then))]
    fn guide(&mut self) -> Result<Line, LineError>
        ensures { Gives held_line result self.new (choice_at form.GuideNoneForm form.GuideForm self.old) }
    {
        if self.takes_word(b"none") {
            return Ok(Line::GuideNone);
        }
        Ok(Line::Guide(self.counted(GREATEST_NUMBER)? as u32))
    }

    #[tactic(auto, unfolding(crate::specs::Reader::Lines::choice_at, crate::specs::Reader::Lines::numbered_at, crate::specs::Reader::Steps::when, crate::specs::Reader::Steps::and_then))]
    fn order(&mut self) -> Result<Line, LineError>
        ensures { Gives held_line result self.new (choice_at form.OrderNoneForm form.OrderForm self.old) }
    {
        if self.takes_word(b"none") {
            return Ok(Line::OrderNone);
        }
        Ok(Line::Order(self.counted(GREATEST_NUMBER)? as u32))
    }

    #[tactic(auto, unfolding(crate::specs::Reader::Lines::drop_at, crate::specs::Reader::Lines::numbered_at, crate::specs::Reader::Steps::when, crate::specs::Reader::Steps::and_then))]
    fn drop_object(&mut self) -> Result<Line, LineError>
        ensures { Gives held_line result self.new (drop_at self.old) }
    {
        if self.takes_word(b"guide") {
            return Ok(Line::DropGuide(self.counted(GREATEST_NUMBER)? as u32));
        }
        self.keyword(b"order")?;
        Ok(Line::DropOrder(self.counted(GREATEST_NUMBER)? as u32))
    }

    #[tactic(auto, unfolding(crate::specs::Reader::Lines::solve_at, crate::specs::Reader::Steps::when))]
    fn solve(&mut self) -> Result<Line, LineError>
        ensures { Gives held_line result self.new (solve_at self.old) }
    {
        if self.takes_word(b"dbt") {
            self.solve_dbt()
        } else if self.takes_word(b"repair") {
            self.solve_repair()
        } else {
            Err(LineError::Form)
        }
    }

    #[tactic(auto, unfolding(crate::specs::Reader::Lines::dbt_at, crate::specs::Reader::Steps::when, crate::specs::Reader::Steps::and_then))]
    fn solve_dbt(&mut self) -> Result<Line, LineError>
        ensures { Gives held_line result self.new (dbt_at self.old) }
    {
        let mut budget = NO_BUDGET;
        if self.takes_word(b"budget") {
            budget = self.counted(NO_BUDGET)?;
        }
        Ok(Line::SolveDbt { budget })
    }

    #[tactic(auto, unfolding(crate::specs::Reader::Lines::repair_at, crate::specs::Reader::Steps::and_then))]
    fn solve_repair(&mut self) -> Result<Line, LineError>
        ensures { Gives held_line result self.new (repair_at self.old) }
    {
        self.keyword(b"tabu")?;
        let tabu = self.counted(GREATEST_TABU)? as u32;
        self.keyword(b"budget")?;
        let budget = self.counted(NO_BUDGET)?;
        Ok(Line::SolveRepair { tabu, budget })
    }

    #[tactic(auto, unfolding(crate::specs::Reader::Lines::prove_at, crate::specs::Reader::Steps::and_then))]
    fn prove(&mut self) -> Result<Line, LineError>
        ensures { Gives held_line result self.new (prove_at self.old) }
    {
        self.keyword(b"budget")?;
        let budget = self.counted(NO_BUDGET)?;
        Ok(Line::Prove { budget })
    }

    #[tactic(auto, unfolding(crate::specs::Reader::Lines::minimize_at, crate::specs::Reader::Steps::and_then))]
    fn minimize(&mut self, alloc: Global) -> Result<Line, LineError>
        ensures { Gives held_line result self.new (minimize_at self.old) }
    {
        let target = self.owned_name(alloc)?;
        self.keyword(b"budget")?;
        let budget = self.counted(NO_BUDGET)?;
        Ok(Line::Minimize { target, budget })
    }
}
