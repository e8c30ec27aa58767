ghost use Rattle.std.specs.Prelude.{◌≡◌, ◌++◌, ℕ, List, IfOk, OnOk, map};
ghost use Rattle.dr_patterns.specs.Fitting.{fits_some};
ghost use Rattle.dr_patterns.specs.Literals.{holding, AreLiteral};

use dr_base::Text;
use std::alloc::{AllocError, Global};

// How many parts are looked for together at least: of fewer each is found faster by itself.
const MANY: usize = 16;

// The parts that are to be looked for together: all of them or none. Where they are few, the patterns that ask for them are added to
// the others. The only error is that memory ran out.
pub fn parts_together(
    alloc: Global,
    parts: Vec<Text>,
    others: &mut Vec<Text>,
) -> Result<Vec<Text>, AllocError>
    ensures same { IfOk result (λ left. (text : List ℕ) → fits_some (map holding left.items ++ others.new.items) text ≡ fits_some (map holding parts.items ++ others.old.items) text) }
    ensures literal { IfOk result (λ left. AreLiteral parts.items → AreLiteral left.items) }
{
    if parts.len() >= MANY {
        return Ok(parts);
    }
    add_each(alloc, parts.as_slice(), others)?;
    Ok(Vec::new(alloc))
}

// Adds the pattern that asks for each of the parts.
fn add_each(alloc: Global, parts: &[Text], others: &mut Vec<Text>) -> Result<(), AllocError>
    ensures { OnOk result (others.new.items ≡ others.old.items ++ map holding parts.now) }
{
    for part in parts {
        others.push(pattern_of(alloc, part.as_str())?)?;
    }
    Ok(())
}

// The pattern that asks for a part.
fn pattern_of(alloc: Global, part: &str) -> Result<Text, AllocError>
    ensures { IfOk result (λ pattern. pattern ≡ holding part.now) }
{
    let pattern = format!(in alloc; "%{part}%")?;
    Text::from_string(alloc, pattern)
}
