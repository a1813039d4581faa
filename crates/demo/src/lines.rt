//! What `demo` prints.

ghost use Rattle.std.specs.Prelude.{◌≡◌, IfOk};
ghost use Rattle.demo.specs.Histories.{main_name};
ghost use Rattle.demo.specs.Demos.{demo_lines};

use git_object::RefName;
use itoa::Buffer;
use octets::{Memory, Octets};
use std::alloc::Global;
use verify_ref::{RefVerdict, text};

/// How many changes there are, and the verdict's line.
pub fn demo_lines(
    alloc: Global,
    count: u32,
    name: &RefName,
    verdict: &RefVerdict,
) -> Result<Octets, Memory>
    requires { name.now ≡ main_name }
    ensures { IfOk result (λ lines. lines ≡ demo_lines count verdict.now) }
{
    let mut digits = Buffer::new();
    let mut lines = Octets::from_slice(alloc, b"demo ")?;
    lines.append(digits.format(count).as_bytes())?;
    lines.append(b"\n")?;
    let line = text(alloc, name, verdict)?;
    lines.append(line.as_slice())?;
    Ok(lines)
}
