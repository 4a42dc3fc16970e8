//! Names, values and rows one after another.
ghost use Rattle.std.specs.Prelude.{◌++◌, map, option_map};
ghost use Rattle.palm_read.specs.Reader.Held.{Gives, Passes, held_value};
ghost use Rattle.palm_read.specs.Reader.Lists.{many_at, next_name, names_at, next_value, values_at, next_row};
ghost use Rattle.palm_read.specs.Reader.Steps.{name_at, mark_at, keyword_at};

use crate::line::{Name, NameList};
use crate::parse::LineError;
use crate::reader::cursor::Cursor;
use palm_base::{Value, ValueList};
use palm_model::RowList;
use std::alloc::Global;

impl<'a> Cursor<'a> {
    /// Takes a sign that has to stand in front.
    pub fn sign(&mut self, text: &[u8]) -> Result<(), LineError>
        ensures { Passes result self.new (mark_at text.now self.old) }
    {
        if self.takes_sign(text) {
            Ok(())
        } else {
            Err(LineError::Form)
        }
    }

    /// Takes a word that has to stand in front.
    pub fn keyword(&mut self, text: &[u8]) -> Result<(), LineError>
        ensures { Passes result self.new (keyword_at text.now self.old) }
    {
        if self.takes_word(text) {
            Ok(())
        } else {
            Err(LineError::Form)
        }
    }

    /// Reads a name that has to stand in front.
    pub fn owned_name(&mut self, alloc: Global) -> Result<Name, LineError>
        ensures { Gives (λ name. name) result self.new (name_at self.old) }
    {
        match self.name() {
            Some(text) => Ok(Name::from_slice(alloc, text)?),
            None => Err(LineError::Form),
        }
    }

    /// Reads numbers with commas between them, and then a sign.
    #[tactic(auto, unfolding(crate::specs::Reader::Lists::values_at, crate::specs::Reader::Steps::when, crate::specs::Reader::Steps::and_then))]
    pub(crate) fn values(&mut self, alloc: Global, close: &[u8]) -> Result<ValueList, LineError>
        ensures { Gives (map held_value) result self.new (values_at close.now self.old) }
    {
        let mut values = ValueList::new(alloc);
        if self.takes_sign(close) {
            return Ok(values);
        }
        values.push(self.value()?)?;
        let values = self.more_values(values)?;
        self.sign(close)?;
        Ok(values)
    }

    /// Reads on as long as a comma stands in front.
    fn more_values(&mut self, mut values: ValueList) -> Result<ValueList, LineError>
        ensures { Gives (λ more. values ++ map held_value more) result self.new (many_at next_value self.old) }
    {
        while let Some(value) = self.next_value()? {
            values.push(value)?;
        }
        Ok(values)
    }

    /// Reads a comma and a number, if a comma stands in front.
    #[tactic(auto, unfolding(crate::specs::Reader::Lists::next_value, crate::specs::Reader::Steps::when, crate::specs::Reader::Steps::and_then))]
    fn next_value(&mut self) -> Result<Option<Value>, LineError>
        ensures { Gives (option_map held_value) result self.new (next_value self.old) }
    {
        if !self.takes_sign(b",") {
            return Ok(None);
        }
        let value = self.value()?;
        Ok(Some(value))
    }

    /// Reads so many names or more, as long as a name stands in front.
    #[tactic(auto, unfolding(crate::specs::Reader::Lists::names_at, crate::specs::Reader::Steps::and_then, crate::specs::Reader::Steps::choose))]
    pub fn names(&mut self, alloc: Global, least: usize) -> Result<NameList, LineError>
        ensures { Gives (λ names. names) result self.new (names_at least self.old) }
    {
        let names = self.all_names(alloc)?;
        if names.len() < least {
            return Err(LineError::Form);
        }
        Ok(names)
    }

    fn all_names(&mut self, alloc: Global) -> Result<NameList, LineError>
        ensures { Gives (λ names. names) result self.new (many_at next_name self.old) }
    {
        let mut names = NameList::new(alloc);
        while let Some(name) = self.next_name(alloc)? {
            names.push(name)?;
        }
        Ok(names)
    }

    /// Reads a name, if one stands in front.
    #[tactic(auto, unfolding(crate::specs::Reader::Lists::next_name, crate::specs::Reader::Steps::when))]
    fn next_name(&mut self, alloc: Global) -> Result<Option<Name>, LineError>
        ensures { Gives (option_map (λ name. name)) result self.new (next_name self.old) }
    {
        match self.name() {
            Some(text) => Ok(Some(Name::from_slice(alloc, text)?)),
            None => Ok(None),
        }
    }

    /// Reads rows of so many numbers, as long as a parenthesis stands in front.
    pub(crate) fn rows(&mut self, alloc: Global, width: usize) -> Result<RowList, LineError>
        ensures { Gives (map (map held_value)) result self.new (many_at (next_row width) self.old) }
    {
        let mut rows = RowList::new(alloc);
        while let Some(row) = self.next_row(alloc, width)? {
            rows.push(row)?;
        }
        Ok(rows)
    }

    /// Reads a row of so many numbers in parentheses, if a parenthesis stands in front.
    #[tactic(auto, unfolding(crate::specs::Reader::Lists::next_row, crate::specs::Reader::Steps::when, crate::specs::Reader::Steps::choose, crate::specs::Reader::Steps::and_then))]
    fn next_row(&mut self, alloc: Global, width: usize) -> Result<Option<ValueList>, LineError>
        ensures { Gives (option_map (map held_value)) result self.new (next_row width self.old) }
    {
        if !self.takes_sign(b"(") {
            return Ok(None);
        }
        let row = self.values(alloc, b")")?;
        if row.len() != width {
            return Err(LineError::Form);
        }
        Ok(Some(row))
    }
}
