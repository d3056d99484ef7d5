// The calls of the list.
use std::fmt;

// In the order of their numbers there.
#[derive(Clone, Copy)]
pub enum Call {
    Build,
    Unite,
    Shrink,
    Predict,
    Explain,
    Intake,
    Text,
}

// By its number in the list; any other stands before a name.
impl TryFrom<usize> for Call {
    type Error = usize;

    fn try_from(number: usize) -> Result<Call, usize> {
        match number {
            0 => Ok(Call::Build),
            1 => Ok(Call::Unite),
            2 => Ok(Call::Shrink),
            3 => Ok(Call::Predict),
            4 => Ok(Call::Explain),
            5 => Ok(Call::Intake),
            6 => Ok(Call::Text),
            _ => Err(number),
        }
    }
}

// As it is named in the counts.
impl fmt::Display for Call {
    fn fmt<W: fmt::Write>(&self, f: &mut fmt::Formatter<W>) -> fmt::Result {
        f.write_str(match self {
            Call::Build => "build",
            Call::Unite => "unite",
            Call::Shrink => "shrink",
            Call::Predict => "predict",
            Call::Explain => "explain",
            Call::Intake => "intake",
            Call::Text => "text",
        })
    }
}
