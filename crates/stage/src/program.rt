// The words of such a program, and the lines of its script.
use crate::play::{Cluster, Play};
use std::io::{BufRead, BufReader, BufWriter, Read, Write};
use std::rt::{Env, Files};
use std::{env, fs, io};

// A long play says how far it is each time that so many lines are done.
const PROGRESS_LINES: usize = 100_000;

// In what a program differs from another one that plays.
#[derive(Clone, Copy)]
pub struct Program<'a> {
    // Which words it takes, and what `--help` prints, if it knows that word.
    pub usage: &'a str,
    pub help: Option<&'a str>,
    // Whether each answer is shown at once, and whether a long play says how far it is.
    pub at_once: bool,
    pub progress: bool,
}

impl Program<'_> {
    // Plays what the words after the program's name say, at a cluster of which none are open.
    pub fn run<C: Cluster + Drop, R: Env + Files + Input + Print + Eprint + AllocGlobal>(
        &self,
        rt: &R,
    ) -> io::Result<()> {
        let mut words = env::args(rt)?.skip(1);
        let Some(word) = words.next() else {
            return report(
                rt,
                "standard input",
                self.play_all::<C, R, _>(rt, rt.reader()),
            );
        };
        if words.next().is_some() {
            let usage = self.usage;
            eprintln!(rt; "cluster: one script at a time: {usage}")?;
            return Err(io::ErrorKind::InvalidInput.into());
        }
        if let (Some(help), "--help" | "-h") = (self.help, word.as_str()) {
            return rt.print(help);
        }
        report(rt, word.as_str(), self.play_file::<C, R>(rt, word.as_str()))
    }

    fn play_file<C: Cluster + Drop, R: Files + Print + Eprint + AllocGlobal>(
        &self,
        rt: &R,
        path: &str,
    ) -> io::Result<()> {
        self.play_all::<C, R, _>(rt, fs::open(rt, path)?)
    }

    // Plays all lines of `input`.
    fn play_all<C: Cluster + Drop, R: Print + Eprint + AllocGlobal, I: Read + Drop>(
        &self,
        rt: &R,
        input: I,
    ) -> io::Result<()> {
        let heap = rt.alloc();
        let mut printer = BufWriter::new(heap, io::writer(rt))?;
        let mut play = Play::new(heap, C::none(heap)?);
        for (number, line) in BufReader::new(heap, input)?.split(heap, b'\n').enumerate() {
            play.line(number as u64, line?.as_slice())?;
            printer.write_all(play.out.as_bytes())?;
            play.out.clear();
            if self.at_once {
                printer.flush()?;
            }
            let lines = number.saturating_add(1);
            if self.progress && lines % PROGRESS_LINES == 0 {
                eprintln!(rt; "cluster: {lines} lines")?;
            }
        }
        printer.flush()
    }
}

// Says on standard error why a play ended early.
fn report(rt: &impl Eprint, name: &str, played: io::Result<()>) -> io::Result<()> {
    if let Err(e) = &played {
        eprintln!(rt; "cluster: cannot play {name}: {e}")?;
    }
    played
}
