// Who is told of troubles, and how far a walk is.

ghost use Rattle.std.specs.Prelude.{◌≡◌, ◌<◌, ◌++◌, IfOk, OnErr, OnOk};
ghost use Rattle.check_files.specs.Told.{IsBetween, Puts, before, shown_count};
ghost use Rattle.spdx_program.specs.Telling.{IsEndTold, IsLineBehind, IsStopTold, PutsTotals, heard_in, noted_in};

use crate::ended::Ended;
use crate::outputs::Screen;
use check_files::{CheckTrouble, Telling};
use fix_program::Progress;
use line_engine::device::Sink;
use line_engine::lines::write_all;
use spdx_commands::{Follower, Listener};
use spdx_troubles::Trouble;
use std::alloc::{AllocError, Global};
use std::io::Write;

// After how many files it is shown how far a walk is.
const STEP: u64 = 1_000;

// What clears a line on which it is shown how far a walk is.
const CLEAR: &[u8] = b"\r\x1b[K";

/// Writes each trouble as its line, as far as that goes. Where the screen wants it, it shows how far a walk is, too, and clears
/// that before it writes a line.
#[derive(Drop)]
pub struct Teller<F: Drop> {
    pub faults: F,
    pub screen: Screen,
}

impl<F: Sink + Drop> Teller<F> {
    /// Tells the last line, and answers the status.
    pub(crate) fn end(&mut self, alloc: Global, end: Result<Ended, Trouble>) -> u8
        ensures told { IsEndTold self.old.screen.progress end (F.told self.old.faults)
            (F.told self.new.faults) result }
        ensures low { IfOk end (λ ended. ended.status < 4) → result < 4 }
    {
        match end {
            Ok(ended) => {
                self.put_totals(&ended.totals);
                ended.status
            }
            Err(trouble) => self.stop(alloc, &trouble),
        }
    }

    /// Tells the trouble that a command stopped by, and answers its status; where memory for its line is refused, that is
    /// told instead.
    fn stop(&mut self, alloc: Global, trouble: &Trouble) -> u8
        ensures told { IsStopTold self.old.screen.progress (F.told self.old.faults)
            (F.told self.new.faults) trouble.now result }
        ensures low { result < 4 }
    {
        match put_line(&mut self.faults, self.screen, alloc, trouble) {
            Ok(()) => trouble.status(),
            Err(AllocError) => {
                put_text(&mut self.faults, self.screen, b"spdx: out of memory\n");
                3
            }
        }
    }

    /// Writes the line of totals, if there is one.
    #[tactic(auto, using(crate::proofs::Told::no_text))]
    fn put_totals(&mut self, totals: &Option<String>)
        ensures { PutsTotals self.old.screen.progress (F.told self.old.faults)
            (F.told self.new.faults) totals.now }
    {
        if let Some(totals) = totals {
            put_text(&mut self.faults, self.screen, totals.as_bytes());
        }
    }
}

// Writes the bytes, unless a write has failed.
#[tactic(auto, using(crate::proofs::Told::is_put, crate::proofs::Told::stays_failed))]
fn put<F: Sink>(faults: &mut F, bytes: &[u8])
    ensures { Puts (F.told faults.old) (F.told faults.new) (λ text. text ≡ bytes.now) }
{
    if faults.failed() {
        return;
    }
    let _ = write_all(faults, bytes);
}

// Takes away what is shown of a walk, where that is shown.
#[tactic(auto, using(crate::proofs::Told::is_clear, crate::proofs::Told::no_clear))]
fn clear<F: Sink>(faults: &mut F, screen: Screen)
    ensures { Puts (F.told faults.old) (F.told faults.new)
        (λ text. text ≡ before screen.progress) }
{
    if screen.progress {
        put(faults, CLEAR);
    }
}

// Writes the bytes on a line of their own.
#[tactic(auto, using(crate::proofs::Told::one_behind))]
fn put_text<F: Sink>(faults: &mut F, screen: Screen, bytes: &[u8])
    ensures { Puts (F.told faults.old) (F.told faults.new)
        (λ text. text ≡ before screen.progress ++ bytes.now) }
{
    clear(faults, screen);
    put(faults, bytes);
}

#[tactic(auto, using(crate::proofs::Told::line_put))]
fn put_line<F: Sink>(
    faults: &mut F,
    screen: Screen,
    alloc: Global,
    trouble: &Trouble,
) -> Result<(), AllocError>
    ensures line { OnOk result (Puts (F.told faults.old) (F.told faults.new)
        (IsLineBehind screen.progress trouble.now)) }
    ensures memory { OnErr result (F.told faults.new ≡ F.told faults.old) }
{
    let line = trouble.line(alloc)?;
    put_text(faults, screen, line.as_bytes());
    Ok(())
}

// So many files, behind what stood on the line.
fn count_text(alloc: Global, files: u64) -> Result<Vec<u8>, AllocError>
    ensures { IfOk result (λ text. text.items ≡ shown_count files) }
{
    let mut text = Vec::new(alloc);
    match write!(text, "\r{files} files") {
        Ok(()) => Ok(text),
        Err(_) => Err(AllocError),
    }
}

// Shows how many files a walk has seen, each thousand of them.
#[tactic(auto, using(crate::proofs::Told::count_shown, crate::proofs::Told::none_shown))]
fn show<F: Sink>(
    faults: &mut F,
    screen: Screen,
    alloc: Global,
    files: u64,
) -> Result<(), AllocError>
    ensures { Puts (F.told faults.old) (F.told faults.new) (IsBetween screen.progress) }
{
    if !screen.progress || files % STEP != 0 || files == 0 {
        return Ok(());
    }
    let text = count_text(alloc, files)?;
    put(faults, &text);
    Ok(())
}

impl<F: Sink + Drop> Telling for Teller<F> {
    ghost told = { λ teller. noted_in teller.screen.progress (F.told teller.faults) };

    #[tactic(auto, using(crate::proofs::Told::noted))]
    fn tell(&mut self, alloc: Global, trouble: CheckTrouble) -> Result<(), AllocError> {
        put_line(
            &mut self.faults,
            self.screen,
            alloc,
            &Trouble::from(trouble),
        )
    }

    #[tactic(auto, using(crate::proofs::Told::none_told))]
    fn seen(&mut self, alloc: Global, files: u64) -> Result<(), AllocError> {
        show(&mut self.faults, self.screen, alloc, files)
    }

    #[tactic(auto, using(crate::proofs::Told::all_cleared))]
    fn ended(&mut self) {
        clear(&mut self.faults, self.screen);
    }
}

impl<F: Sink + Drop> Listener for Teller<F> {
    ghost heard = { λ teller. heard_in teller.screen.progress (F.told teller.faults) };

    #[tactic(auto, using(crate::proofs::Told::heard))]
    fn hear(&mut self, alloc: Global, trouble: Trouble) -> Result<(), AllocError> {
        put_line(&mut self.faults, self.screen, alloc, &trouble)
    }
}

impl<F: Sink + Drop> Progress for Teller<F> {
    ghost use Rattle.std.specs.Prelude.{[]};
    ghost use Rattle.check_files.specs.Told.{Hears};

    ghost Shows = { λ x y. Hears (heard_in x.screen.progress (F.told x.faults))
        (heard_in y.screen.progress (F.told y.faults)) [] };

    #[tactic(auto, using(crate::proofs::Told::none_told))]
    fn seen(&mut self, alloc: Global, files: u64) -> Result<(), AllocError> {
        show(&mut self.faults, self.screen, alloc, files)
    }

    #[tactic(auto, using(crate::proofs::Told::all_cleared))]
    fn ended(&mut self) {
        clear(&mut self.faults, self.screen);
    }
}

impl<F: Sink + Drop> Follower for Teller<F> {
    ghost steady = { λ x y shows. shows };
}
