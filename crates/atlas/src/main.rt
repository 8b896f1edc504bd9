//! The program `atlas`: reads a sheet and jobs from standard input, and prints the answers.

#![tactic(auto)]

ghost use Rattle.std.specs.Prelude.{◌+◌, length};
ghost use Rattle.coxeter.specs.Groups.{rank as rank_of};
ghost use Rattle.coxeter.specs.Matrices.{matrix};
ghost use Rattle.coxeter.specs.Pairs.{Path};
ghost use Rattle.carriers.specs.Openings.{Carried, Opens};

use answers;
use carriers::carrier::Carrier;
use carriers::chamber::Chamber;
use carriers::one_line::OneLine;
use coxeter::group::Group;
use jobs::answering::answer;
use lines::located::Located;
use lines::reader::{MOST_BYTES, Reader};
use numbers::golden::Golden;
use numbers::number::Number;
use numbers::whole::Whole;
use refusals::refusal::Refusal;
use sheets::drafts::Sheet;
use sheets::kinds::Kind;
use sheets::reading::sheet;
use std::io;
use std::io::{Read, Write};

// A run of the program: the system, and what is left of the input.
#[derive(Drop)]
struct Run<'a> {
    rt: HostRuntime,
    reader: Reader<'a>,
}

impl Run<'_> {
    // Prints an answer.
    fn print(&self, answer: String) -> io::Result<()> {
        self.rt.stdout().write_all(answer.as_bytes())
    }

    // Prints a refusal.
    fn refuse<F: Refusal>(&self, refused: &Located<F>) -> io::Result<()> {
        self.print(answers::refusal(self.rt.alloc(), refused)?)
    }

    // Answers the lines behind the kind's.
    fn jobs<C: Carrier>(&mut self, carrier: &mut C) -> io::Result<()> {
        while !self.reader.is_done() {
            // By matches and not `?`: a refusal is printed, and does not end the run.
            let line = match self.reader.next() {
                Ok(line) => line,
                Err(unfinished) => return self.refuse(&unfinished),
            };
            match answer(self.rt.alloc(), carrier, line.bytes) {
                Ok(text) => self.print(text)?,
                Err(error) => self.refuse(&error.at(line.number)?)?,
            }
        }
        Ok(())
    }

    // Answers the jobs on a chamber over the row. The check is asked, though a sheet's kind carries its group.
    fn on_chamber<N: Number>(&mut self, group: Group, row: &mut [N]) -> io::Result<()>
        requires { Opens (rank_of (matrix group)) (length row.old) (Carried N.Number.fits (matrix group)) }
    {
        match Chamber::check(&group, row) {
            Ok(()) => self.jobs(&mut Chamber::make(group, row)),
            Err(_) => unreachable!(),
        }
    }

    // Answers the jobs in one-line notation over the row.
    fn on_line(&mut self, group: Group, row: &mut [u8]) -> io::Result<()>
        requires { Opens (rank_of (matrix group) + 1) (length row.old) (Path (matrix group)) }
    {
        match OneLine::check(&group, row) {
            Ok(()) => self.jobs(&mut OneLine::make(group, row)),
            Err(_) => unreachable!(),
        }
    }

    // Answers the sheet, and the jobs behind it on the kind of carrier that it asks for.
    fn sheet(&mut self, sheet: Sheet) -> io::Result<()> {
        let group = sheet.group();
        self.print(answers::group(self.rt.alloc(), &group)?)?;
        match sheet.kind() {
            Kind::Whole => self.on_chamber(group, &mut [Whole::one(); 8]),
            Kind::Golden => self.on_chamber(group, &mut [Golden::one(); 8]),
            Kind::Line => self.on_line(group, &mut [0; 9]),
        }
    }
}

fn main(rt: HostRuntime) -> io::Result<()> {
    let mut input = Vec::new(rt.alloc());
    let _ = rt.stdin().take(MOST_BYTES as u64).read_to_end(&mut input)?;
    let reader = Reader::new(input.as_slice());
    let mut run = Run { rt, reader };
    match sheet(&mut run.reader) {
        Ok(sheet) => run.sheet(sheet),
        Err(refused) => run.refuse(&refused),
    }
}
