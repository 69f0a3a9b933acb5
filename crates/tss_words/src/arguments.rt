//! The words that the system hands to a program.

ghost use Rattle.std.specs.Prelude.{◌≡◌, ◌≢◌, [], map, drop, IfOk, IfErr, OnOk};
ghost use Rattle.std.specs.Result.{IsOkAnd};
ghost use Rattle.std.specs.String.{string_bytes};
ghost use Rattle.std.specs.IoError.{error_kind};
ghost use Rattle.std.specs.declared.io.ErrorKind.TheVariants.{OutOfMemory};

use std::io;
use std::io::ErrorKind;
use tss_base::NoMemory;

// The words behind the program's own name, which is the first argument.
fn behind_first(arguments: &[String]) -> &[String]
    ensures { map string_bytes result.now ≡ drop 1 (map string_bytes arguments.now) }
{
    match arguments {
        [_program, words @ ..] => words,
        [] => &[],
    }
}

/// The words behind the program's own name, which is the first of its arguments as the system tells
/// them. Arguments that aren't text are no words. `NoMemory` where memory for them wasn't found.
pub fn words_behind(arguments: &io::Result<Vec<String>>) -> Result<&[String], NoMemory>
    ensures words { IfOk arguments.now (λ all. IsOkAnd result
        (λ words. map string_bytes words.now ≡ drop 1 (map string_bytes all.items))) }
    ensures no_text { IfErr arguments.now (λ fault. error_kind fault ≢ OutOfMemory
        → IsOkAnd result (λ words. words.now ≡ [])) }
    ensures no_memory { IfErr arguments.now
        (λ fault. error_kind fault ≡ OutOfMemory → OnOk result ⊥) }
{
    match arguments {
        Ok(all) => Ok(behind_first(all.as_slice())),
        Err(fault) if fault.kind() == ErrorKind::OutOfMemory => Err(NoMemory),
        Err(_) => Ok(&[]),
    }
}
