//! A script from its first byte to its end.
use crate::script::{Asked, Script};
use crate::stop::TableStop;
use crate::table::print_table;
use crate::text::Text;
use sexpr_reader::{Reader, Sexpr, SyntaxFault};
use sort_check::CheckFault;
use std::alloc::{AllocError, Global};
use std::io::Read;

fn whole_input(rt: HostRuntime) -> Result<Vec<u8>, TableStop> {
    let mut script = Vec::new(rt.alloc());
    match rt.stdin().read_to_end(&mut script) {
        Ok(_) => Ok(script),
        Err(_) => Err(TableStop::Unread),
    }
}

/// Does each command of the script on standard input, up to `exit`, a syntax fault or its end.
pub fn run(rt: HostRuntime) -> Result<(), TableStop> {
    let alloc = rt.alloc();
    let mut reader = Reader::new(alloc);
    reader.feed(whole_input(rt)?.as_slice())?;
    let mut script = Script::new(alloc);
    for _ in 0..u64::MAX {
        match reader.end() {
            Ok(Some(item)) => match step(rt, &mut script, &item)? {
                Going::On => {}
                Going::Out => return Ok(()),
            },
            Ok(None) => return Ok(()),
            Err(SyntaxFault::Memory(error)) => return Err(TableStop::Memory(error)),
            Err(_) => return print_line(rt, b"syntax"),
        }
    }
    Ok(())
}

/// Whether further commands are done.
enum Going {
    On,
    Out,
}

fn step(rt: HostRuntime, script: &mut Script, item: &Sexpr) -> Result<Going, TableStop> {
    match script.step(rt.alloc(), item) {
        Ok(Asked::Nothing) => Ok(Going::On),
        Ok(Asked::Cubes) => {
            print_table(rt, script.live())?;
            Ok(Going::On)
        }
        Ok(Asked::CubesUnder(count)) => {
            print_table(rt, script.live())?;
            script.leave(count);
            Ok(Going::On)
        }
        Ok(Asked::Echo(text)) => {
            print_line(rt, text.as_slice())?;
            Ok(Going::On)
        }
        Ok(Asked::Fault(what)) => {
            print_line(rt, what.as_bytes())?;
            Ok(Going::On)
        }
        Ok(Asked::End) => Ok(Going::Out),
        Err(CheckFault::Memory(error)) => Err(TableStop::Memory(error)),
        Err(fault) => {
            print_line(rt, fault_text(rt.alloc(), &fault)?.as_bytes())?;
            Ok(Going::On)
        }
    }
}

fn fault_text(alloc: Global, fault: &CheckFault) -> Result<String, AllocError> {
    format!(in alloc; "{fault}")
}

fn print_line(rt: HostRuntime, line: &[u8]) -> Result<(), TableStop> {
    let mut text = Text::new(rt.alloc());
    text.add_bytes(line)?;
    text.add("\n")?;
    text.print(rt)
}
