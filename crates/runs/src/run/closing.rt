// Closing a run.
ghost use Rattle.std.specs.Prelude.{◌≡◌, Some};
ghost use Rattle.runs.specs.Held.{sizes_held, progress_held, closing_of, end_word};

use super::Run;
use std::fmt;

// All tiles were done, or not.
#[derive(Clone, Copy, PartialEq, Eq, Debug)]
pub enum End {
    Whole,
    CutShort,
}

impl fmt::Display for End {
    ghost output = { λ end. Some (end_word end) };

    fn fmt<W: fmt::Write>(&self, f: &mut fmt::Formatter<W>) -> fmt::Result {
        f.write_str(match self {
            End::Whole => "whole",
            End::CutShort => "cut short",
        })
    }
}

// What closing answers: the done tiles as bits, and the updated points.
#[derive(Clone, Copy, PartialEq, Eq, Debug)]
pub struct Closing {
    pub done: u64,
    pub points: u32,
    pub end: End,
}

impl Run {
    // Takes the run apart. It refuses nothing.
    pub fn close(self) -> Closing
        ensures { result ≡ closing_of (sizes_held self).tiles (progress_held self) }
    {
        let Run {
            rows: _,
            entries: _,
            sweeps: _,
            tiles,
            done,
            points,
        } = self;
        let end = if done.has_all(tiles) {
            End::Whole
        } else {
            End::CutShort
        };
        Closing {
            done: done.0,
            points,
            end,
        }
    }
}
