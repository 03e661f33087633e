// Running scripts.
ghost use Rattle.std.specs.Prelude.{OnOk};
ghost use Rattle.rooms_check.specs.Written.{IsExtended};

use crate::Stop;
use crate::calls::memory::life::site::Site;
use crate::calls::memory::{Lent, ScriptSheet, all_lines, all_pairs, all_spools};
use crate::calls::{CALL_SIZE, Make, SETTING_SIZE, ScriptBody, ScriptCall, ScriptSetting};
use carriers::carrier::Carrier;
use letters::job::Job;
use letters::letter::Letter;
use letters::text::Text;
use sheet_kinds::job_list::JobList;
use sheet_kinds::timeline::Timeline;
use std::alloc::{AllocError, Global};
use std::io;
use std::io::Write;

// A script whose bodies are of one kind.
#[derive(Clone, Copy)]
struct Script<'a, B: Copy> {
    alloc: Global,
    setting: ScriptSetting,
    calls: &'a [u8],
    blank: Letter<B>,
}

impl<B: ScriptBody> Script<'_, B> {
    // Makes the calls over carriers of one make.
    fn make_calls<C: Carrier<Body = B> + Drop, K: ScriptSheet<Body = B> + Drop>(
        &self,
        carriers: Vec<C>,
        sheet: K,
        lines: &mut String,
    ) -> Result<(), AllocError> {
        let mut site = Site::new(self.alloc, self.setting.places, self.blank, carriers, sheet)?;
        let (calls, _) = self.calls.as_chunks::<CALL_SIZE>();
        for call in calls {
            site.make(&ScriptCall::from(call), lines)?;
        }
        Ok(())
    }

    // What is lent to the three carriers.
    fn all_lent(&self) -> Result<Vec<Lent<B>>, AllocError> {
        let mut all = Vec::new(self.alloc);
        for size in self.setting.carriers {
            all.push(Lent::new(self.alloc, size, self.blank)?)?;
        }
        Ok(all)
    }

    // Makes the carriers and the calls, and adds the lines of what was lent.
    fn run<K: ScriptSheet<Body = B> + Drop>(
        &self,
        sheet: K,
        lines: &mut String,
    ) -> Result<(), Stop> {
        let mut lent = self.all_lent()?;
        let sizes = self.setting.carriers;
        match self.setting.make {
            Make::Lines => {
                self.make_calls(all_lines(self.alloc, sizes, &mut lent)?, sheet, lines)?
            }
            Make::Spool => {
                self.make_calls(all_spools(self.alloc, sizes, &mut lent)?, sheet, lines)?
            }
            Make::Pair => {
                self.make_calls(all_pairs(self.alloc, sizes, &mut lent)?, sheet, lines)?
            }
        }
        for lent in lent.iter() {
            lent.add_sums(self.setting.make, lines)?;
        }
        Ok(())
    }
}

// Runs a script over letters that have a body of this kind where nothing is said of them.
fn run_over<B: ScriptBody, K: ScriptSheet<Body = B> + Drop>(
    alloc: Global,
    setting: ScriptSetting,
    calls: &[u8],
    body: B,
    sheet: K,
    lines: &mut String,
) -> Result<(), Stop> {
    let script = Script {
        alloc,
        setting,
        calls,
        blank: Letter::blank(body),
    };
    script.run(sheet, lines)
}

// Runs a script and adds its lines.
fn run_script(
    alloc: Global,
    setting: ScriptSetting,
    calls: &[u8],
    lines: &mut String,
) -> io::Result<()> {
    writeln!(lines, "script")?;
    let ended = if setting.texts {
        run_over(
            alloc,
            setting,
            calls,
            Text::default(),
            Timeline::new(),
            lines,
        )
    } else {
        run_over(alloc, setting, calls, Job::Add(0), JobList::new(), lines)
    };
    match ended {
        Ok(()) => Ok(()),
        Err(Stop::Refused(why)) => {
            writeln!(lines, "refused {why}")?;
            Ok(())
        }
        Err(Stop::Io(error)) => Err(error),
    }
}

// The setting and the calls of the first script, and the scripts behind it; none where the bytes are too few.
fn first_script(bytes: &[u8]) -> Option<(ScriptSetting, &[u8], &[u8])> {
    let (front, rest) = bytes.split_first_chunk::<SETTING_SIZE>()?;
    let setting = ScriptSetting::from(front);
    let (calls, rest) = rest.split_at_checked(CALL_SIZE * usize::from(setting.calls))?;
    Some((setting, calls, rest))
}

// Runs all scripts and adds their lines.
fn run_all(alloc: Global, input: &[u8], lines: &mut String) -> io::Result<()> {
    let mut rest = input;
    for _ in 0..input.len() {
        let Some((setting, calls, further)) = first_script(rest) else {
            break;
        };
        run_script(alloc, setting, calls, lines)?;
        rest = further;
    }
    Ok(())
}

// Runs the scripts of an input and writes their lines.
pub fn run_scripts<W: Write>(alloc: Global, input: &[u8], output: &mut W) -> io::Result<()>
    ensures { OnOk result (IsExtended (W.contents output.old) (W.contents output.new)) }
{
    let mut lines = String::new(alloc);
    run_all(alloc, input, &mut lines)?;
    output.write_all(lines.as_bytes())
}
