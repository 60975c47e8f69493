//! A place in the bytes of a file.
ghost use Rattle.std.specs.Prelude.{◌≡◌, ◌^◌, ◌<◌, ◌≤◌, ℕ, List as Items, length, IfOk};
ghost use Rattle.file_forms.specs.Forms.{number, raw, ruled, several, at_least, between};
ghost use Rattle.file_forms.specs.Seen.{Shows};
ghost use Rattle.mesa_base.specs.declared.file_fault.Field.TheVariants.{Length};
ghost use Rattle.file_forms.specs.Names as names;
ghost use Rattle.file_forms.specs.Reads.{Reads, ReadsAs};

use crate::seen::Seen;
use crate::stopped::Stopped;
use crate::value::value;
use mesa_base::{Field, List, Name, Stamp};
use std::alloc::Global;

/// The bytes of a file that are still to be read.
#[derive(Drop)]
pub struct FileCursor<'a> {
    pub rest: &'a [u8],
}

impl<'a> FileCursor<'a> {
    /// So many bytes as they are. Cut: there are fewer.
    pub fn raw(&mut self, size: usize) -> Result<&'a [u8], Stopped>
        ensures { ReadsAs (λ text. text.now) ((raw size).read self.old.rest.now) result self.new.rest.now }
    {
        if self.rest.len() < size {
            return Err(Stopped::Cut);
        }
        let (text, rest) = self.rest.split_at(size);
        self.rest = rest;
        Ok(text)
    }

    /// A number of so many bytes. Cut: there are fewer.
    pub fn number(&mut self, size: usize) -> Result<u64, Stopped>
        requires { size ≤ 7 }
        ensures read { Reads ((number size).read self.old.rest.now) result self.new.rest.now }
        ensures below { IfOk result (λ n. n < 256 ^ size) }
    {
        if self.rest.len() < size {
            return Err(Stopped::Cut);
        }
        let (text, rest) = self.rest.split_at(size);
        self.rest = rest;
        Ok(value(text))
    }

    /// A number of one byte. Cut: there is none.
    pub fn u8(&mut self) -> Result<u8, Stopped>
        ensures { Reads ((number 1).read self.old.rest.now) result self.new.rest.now }
    {
        let number = self.number(1)?;
        Ok(number as u8)
    }

    /// A number of two bytes. Cut: there are fewer.
    pub fn u16(&mut self) -> Result<u16, Stopped>
        ensures { Reads ((number 2).read self.old.rest.now) result self.new.rest.now }
    {
        let number = self.number(2)?;
        Ok(number as u16)
    }

    /// A number of four bytes. Cut: there are fewer.
    pub fn u32(&mut self) -> Result<u32, Stopped>
        ensures { Reads ((number 4).read self.old.rest.now) result self.new.rest.now }
    {
        let number = self.number(4)?;
        Ok(number as u32)
    }

    /// A count. Length: it is below the least.
    pub fn count_from(&mut self, least: u32) -> Result<u32, Stopped>
        ensures { Reads ((ruled (number 4) (at_least least) Length).read self.old.rest.now) result self.new.rest.now }
    {
        let left = self.rest.len();
        let count = self.u32()?;
        if count < least {
            return Err(Stopped::Bad(Field::Length, left));
        }
        Ok(count)
    }

    /// A count. Length: it is below the least or above the most.
    pub fn count_between(&mut self, least: u32, most: u32) -> Result<u32, Stopped>
        ensures { Reads ((ruled (number 4) (between least most) Length).read self.old.rest.now) result self.new.rest.now }
    {
        let left = self.rest.len();
        let count = self.u32()?;
        if count < least || count > most {
            return Err(Stopped::Bad(Field::Length, left));
        }
        Ok(count)
    }

    /// A stamp, of six bytes. Cut: there are fewer.
    pub fn stamp(&mut self) -> Result<Stamp, Stopped>
        ensures { Reads ((number 6).read self.old.rest.now) result self.new.rest.now }
    {
        let number = self.number(6)?;
        Ok(Stamp::new(number))
    }

    /// The bytes of a name or of none, behind a byte that counts them.
    #[tactic(auto, unfolding(crate::specs::Names::short_text))]
    pub fn short_text(&mut self) -> Result<&'a [u8], Stopped>
        ensures { ReadsAs (λ text. text.now) (names.short_text.read self.old.rest.now) result self.new.rest.now }
    {
        let size = self.u8()?;
        self.raw(size as usize)
    }

    /// A name. Length: it has no bytes; Name: they are none of a name.
    #[tactic(auto, unfolding(crate::specs::Names::name))]
    pub fn name(&mut self, alloc: Global) -> Result<Name, Stopped>
        ensures { Reads (names.name.read self.old.rest.now) result self.new.rest.now }
    {
        let left = self.rest.len();
        let text = self.short_text()?;
        if text.is_empty() {
            return Err(Stopped::Bad(Field::Length, left));
        }
        match Name::new(alloc, text)? {
            Some(name) => Ok(name),
            None => Err(Stopped::Bad(Field::Name, left)),
        }
    }

    /// A name that is none of those before. Length: it has no bytes; Name: they are none of a name; Twice: it was there.
    #[tactic(auto, unfolding(crate::specs::Names::fresh_name))]
    pub fn fresh_name(&mut self, alloc: Global, seen: &Seen) -> Result<Name, Stopped>
        ensures { (before : Items (Items ℕ)) → Shows seen.now before → Reads ((names.fresh_name before).read self.old.rest.now) result self.new.rest.now }
    {
        let left = self.rest.len();
        let name = self.name(alloc)?;
        if seen.has(name.bytes()) {
            return Err(Stopped::Bad(Field::Twice, left));
        }
        Ok(name)
    }

    /// So many names, none of them twice.
    pub fn distinct_names(&mut self, alloc: Global, count: u32) -> Result<List<Name>, Stopped>
        ensures { Reads ((several count names.fresh_name).read self.old.rest.now) result self.new.rest.now }
    {
        let mut all = List::new(alloc);
        let mut seen = Seen::new(alloc);
        'names: for _ in 0..count {
            let name = match self.fresh_name(alloc, &seen) {
                Ok(name) => name,
                Err(why) => return Err(why),
            };
            seen.add(alloc, name.bytes())?;
            all.push(name)?;
        }
        Ok(all)
    }
}
