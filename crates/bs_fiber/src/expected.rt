//! The input that a core expects of a job.
ghost use Rattle.std.specs.Prelude.{◌≡◌, option_map, IfOk, IfSome, OnOk};
ghost use Rattle.bs_board.specs.records.Kept.{IsLegalRecord};

use crate::contents::Contents;
use crate::input::Input;
use crate::job::JobName;
use crate::parts::Parts;
use crate::shared::SharedCommand;
use bs_board::Record;
use std::alloc::{AllocError, Global};

/// All fields of a job's input except its parts, which the others determine.
#[derive(Clone, Copy, Debug)]
pub struct Expected<'a> {
    /// The job.
    pub job: JobName,
    /// The worker that took it, by its number in a core's journal.
    pub worker: u32,
    /// The number of the command in its game, from 1.
    pub seq: u64,
    /// The largest charge of the game's records, in bytes.
    pub quota: u32,
    /// The charge of the kept records, in bytes.
    pub charge: u32,
    /// The number of kept turns.
    pub kept: usize,
    /// The record of the newest board.
    pub last: Option<&'a Record>,
    /// The record of the turn that the command names, if it is kept.
    pub asked: Option<&'a [u8]>,
    /// The command.
    pub command: &'a SharedCommand,
}

fn share_record(kept: Option<&Record>) -> Result<Option<Record>, AllocError>
    ensures { IfOk result (λ shared. shared ≡ option_map (λ kept. kept.now) kept.entry) }
{
    match kept {
        None => Ok(None),
        Some(kept) => Ok(Some(kept.share()?)),
    }
}

fn copy_record(alloc: Global, bytes: Option<&[u8]>) -> Result<Option<Record>, AllocError>
    requires { IfSome (option_map (λ bytes. bytes.now) bytes) IsLegalRecord }
    ensures { IfOk result (λ kept. kept ≡ option_map (λ bytes. bytes.now) bytes.entry) }
{
    match bytes {
        None => Ok(None),
        Some(bytes) => Ok(Some(Record::of_bytes(alloc, bytes)?)),
    }
}

impl Expected<'_> {
    ghost use Rattle.std.specs.Prelude.{[]};
    ghost use Rattle.bs_fiber.specs.Expected.{IsLegalAsked, IsOf};

    /// Makes the input without parts. Shares the newest record and the command.
    fn new_input(&self, alloc: Global) -> Result<Input, AllocError>
        requires { IsLegalAsked self.now }
        ensures expected { IfOk result (λ input. IsOf input self.now) }
        ensures parts { IfOk result (λ input. input.parts ≡ []) }
    {
        Ok(Input {
            job: self.job,
            worker: self.worker,
            seq: self.seq,
            quota: self.quota,
            charge: self.charge,
            kept: self.kept,
            last: share_record(self.last)?,
            asked: copy_record(alloc, self.asked)?,
            command: self.command.share()?,
            parts: Parts::from_vec(Vec::new(alloc)),
        })
    }

    /// Makes new contents with the input and without blocks.
    fn new_contents<const CAP: usize>(
        &self,
        alloc: Global,
    ) -> Result<Box<Contents<CAP>>, AllocError>
        requires { IsLegalAsked self.now }
        ensures expected { IfOk result (λ contents. IsOf contents.value.input self.now) }
        ensures parts { IfOk result (λ contents. contents.value.input.parts ≡ []) }
        ensures frames { IfOk result (λ contents. contents.value.frames.items ≡ []) }
    {
        let contents = Contents {
            input: self.new_input(alloc)?,
            frames: Vec::new(alloc),
            out: None,
        };
        Ok(Box::new(alloc, contents)?)
    }

    /// Overwrites a used input field by field, because moving one copies more than 100 bytes.
    fn overwrite(&self, alloc: Global, input: &mut Input) -> Result<(), AllocError>
        requires { IsLegalAsked self.now }
        ensures expected { OnOk result (IsOf input.new self.now) }
        ensures parts { OnOk result (input.new.parts ≡ []) }
    {
        input.job = self.job;
        input.worker = self.worker;
        input.seq = self.seq;
        input.quota = self.quota;
        input.charge = self.charge;
        input.kept = self.kept;
        input.last = share_record(self.last)?;
        input.asked = copy_record(alloc, self.asked)?;
        input.command.hold(self.command)?;
        input.parts = Parts::from_vec(Vec::new(alloc));
        Ok(())
    }

    fn contents_over<const CAP: usize>(
        &self,
        alloc: Global,
        mut contents: Box<Contents<CAP>>,
    ) -> Result<Box<Contents<CAP>>, AllocError>
        requires { IsLegalAsked self.now }
        ensures expected { IfOk result (λ contents. IsOf contents.value.input self.now) }
        ensures parts { IfOk result (λ contents. contents.value.input.parts ≡ []) }
        ensures frames { IfOk result (λ contents. contents.value.frames.items ≡ []) }
    {
        self.overwrite(alloc, &mut contents.input)?;
        contents.frames.clear();
        Ok(contents)
    }

    /// Makes the contents of a ticket, without parts and blocks: shares the command and the newest
    /// record, and copies the record that the command names. Reuses the memory of `spent`, if
    /// given; then only the copy of a named record is allocated.
    pub fn to_contents<const CAP: usize>(
        &self,
        alloc: Global,
        spent: Option<Box<Contents<CAP>>>,
    ) -> Result<Box<Contents<CAP>>, AllocError>
        requires { IsLegalAsked self.now }
        ensures expected { IfOk result (λ contents. IsOf contents.value.input self.now) }
        ensures parts { IfOk result (λ contents. contents.value.input.parts ≡ []) }
        ensures frames { IfOk result (λ contents. contents.value.frames.items ≡ []) }
    {
        match spent {
            None => self.new_contents(alloc),
            Some(contents) => self.contents_over(alloc, contents),
        }
    }
}
