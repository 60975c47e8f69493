//! The bytes of a file that is written.
ghost use Rattle.std.specs.Prelude.{◌≡◌, ◌≢◌, Some, None, [], OnOk, IsTrue, ◌↔◌};
ghost use Rattle.file_forms.specs.Forms as form;
ghost use Rattle.file_forms.specs.Names as names;
ghost use Rattle.file_forms.specs.Written.{room, appended, file_of};

use mesa_base::limits::FILE_BYTES;
use mesa_base::{Bytes, List, Name, OutOfMemory, Stamp, WriteFault};
use std::alloc::Global;
use std::marker::Model;

/// The bytes of a file so far; None once they are more than a file may have, 536,870,912. Then nothing is kept of them, and
/// what is still written is passed over.
#[derive(Drop)]
pub struct FileWriter {
    bytes: Option<Bytes>,
}

impl Model for FileWriter {
    ghost use Rattle.file_forms.specs.Written.{Written};

    ghost Value = { Written };

    ghost view = { λ writer. writer.bytes };
}

impl FileWriter {
    /// No bytes. It takes no memory.
    pub fn new(alloc: Global) -> FileWriter
        ensures { result ≡ Some [] }
    {
        FileWriter {
            bytes: Some(List::new(alloc)),
        }
    }

    /// All that was written. TooLarge: it is more than a file may have.
    pub fn into_bytes(self) -> Result<Bytes, WriteFault>
        ensures { result ≡ file_of self }
    {
        match self.bytes {
            Some(bytes) => Ok(bytes),
            None => Err(WriteFault::TooLarge),
        }
    }

    /// The bytes are too many, so that nothing comes of more of them.
    pub fn is_full(&self) -> bool
        ensures { IsTrue result ↔ (self.now ≡ None) }
    {
        self.bytes.is_none()
    }

    fn room(&self) -> usize
        ensures { result ≡ room self.now }
    {
        match &self.bytes {
            Some(bytes) => FILE_BYTES.saturating_sub(bytes.len()),
            None => 0,
        }
    }

    /// Bytes as they are.
    #[tactic(auto, unfolding(crate::specs::Written::appended))]
    pub fn raw(&mut self, text: &[u8]) -> Result<(), OutOfMemory>
        ensures { OnOk result (self.new ≡ appended self.old text.now) }
    {
        if text.len() > self.room() {
            self.bytes = None;
            return Ok(());
        }
        match &mut self.bytes {
            Some(bytes) => bytes.extend_from_slice(text),
            None => Ok(()),
        }
    }

    /// A number of one byte.
    pub fn u8(&mut self, number: u8) -> Result<(), OutOfMemory>
        ensures { OnOk result (self.new ≡ appended self.old ((form.number 1).spell number)) }
    {
        self.raw(&number.to_be_bytes())
    }

    /// A number of two bytes, the higher first.
    pub fn u16(&mut self, number: u16) -> Result<(), OutOfMemory>
        ensures { OnOk result (self.new ≡ appended self.old ((form.number 2).spell number)) }
    {
        self.raw(&number.to_be_bytes())
    }

    /// A number of four bytes, the highest first.
    pub fn u32(&mut self, number: u32) -> Result<(), OutOfMemory>
        ensures { OnOk result (self.new ≡ appended self.old ((form.number 4).spell number)) }
    {
        self.raw(&number.to_be_bytes())
    }

    /// A stamp, in six bytes.
    pub fn stamp(&mut self, stamp: Stamp) -> Result<(), OutOfMemory>
        ensures { OnOk result (self.new ≡ appended self.old ((form.number 6).spell stamp)) }
    {
        let bytes = stamp.number().to_be_bytes();
        self.raw(&bytes[2..])
    }

    /// A name, behind a byte that counts its bytes.
    #[tactic(auto, using(crate::proofs::WrittenLaws::appended_twice), unfolding(crate::specs::Names::name, crate::specs::Names::short_text))]
    pub fn name(&mut self, name: &Name) -> Result<(), OutOfMemory>
        requires { names.name.fits name.now }
        ensures { OnOk result (self.new ≡ appended self.old (names.name.spell name.now)) }
    {
        self.u8(name.bytes().len() as u8)?;
        self.raw(name.bytes())
    }
}
