//! What programs read and write.
use crate::fault::UsageFault;
use std::io::Write;
use std::{fs, io};

/// Says that memory is wanting, and answers the program's exit status, 3.
pub fn lack(rt: &HostRuntime, program: &str) -> u8 {
    let _ = eprintln!(rt; "{program}: out of memory");
    3
}

/// Writes to standard output, and answers the program's exit status: `status`, or 4 where the bytes can't be
/// written.
pub fn write(rt: &HostRuntime, program: &str, bytes: &[u8], status: u8) -> u8 {
    if rt.stdout().write_all(bytes).is_err() {
        let _ = eprintln!(rt; "{program}: cannot write: standard output");
        return 4;
    }
    status
}

/// The bytes of a file. On an `Err`, which is the program's exit status, 3 or 4, standard error has been told why
/// there are none.
pub fn read(rt: &HostRuntime, program: &str, name: &str) -> Result<Vec<u8>, u8> {
    match fs::read(rt, name) {
        Ok(bytes) => Ok(bytes),
        Err(error) if error.kind() == io::ErrorKind::OutOfMemory => Err(lack(rt, program)),
        Err(_) => {
            let _ = eprintln!(rt; "{program}: cannot read: {name}");
            Err(4)
        },
    }
}

/// Says why a program has nothing to do, and answers its exit status: 0 after help, 2 after wrong usage, 3 without memory, 4 where help can't
/// be written.
pub fn tell(rt: &HostRuntime, program: &str, fault: UsageFault) -> u8 {
    match fault {
        UsageFault::Help { text } => write(rt, program, &text, 0),
        UsageFault::Usage { text } => {
            let _ = rt.stderr().write_all(&text);
            2
        },
        UsageFault::OutOfMemory => lack(rt, program),
    }
}
