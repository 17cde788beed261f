//! Why a session file is refused.
ghost use Rattle.std.specs.Prelude.{◌≡◌, IfOk, string_bytes};
ghost use Rattle.session_plan.specs.declared.error.PlanError.TheVariants.{Memory};

use key_layout::LayoutError;
use std::alloc::{AllocError, AllocFailed, Global};

/// Why a session file is refused: the first refusal in the order in which keys are read. A key is written as its path,
/// with the entries of arrays of tables counted from 1, as `device[1].slots`.
#[derive(Debug, Drop)]
pub enum PlanError {
    /// The bytes are no TOML table.
    NotToml,

    /// A key that has to be there is not.
    Missing { key: String },

    /// A value is of another kind than its key has, or malformed.
    Wrong { key: String },

    /// No channel or no flag has this name.
    UnknownName { key: String },

    /// A number, or the number of an array's entries, is outside its range.
    OutOfRange { key: String, value: i64 },

    /// The key layout of this device is refused; the error is never out of memory.
    BadLayout { device: u8, error: LayoutError },

    /// Memory ran out.
    Memory,
}

impl PlanError {
    ghost use Rattle.session_plan.specs.ErrorLine.{error_line};

    /// The line that says why the session is refused, as `session: OutOfRange display.width 0`, without a newline at
    /// its end. Running out of memory is no refusal, and its line is empty.
    pub fn line(&self, alloc: Global) -> Result<String, AllocError>
        ensures { IfOk result (λ line. string_bytes line ≡ error_line self.now) }
    {
        match self {
            PlanError::NotToml => String::from_str(alloc, "session: NotToml"),
            PlanError::Missing { key } => format!(in alloc; "session: Missing {key}"),
            PlanError::Wrong { key } => format!(in alloc; "session: Wrong {key}"),
            PlanError::UnknownName { key } => format!(in alloc; "session: UnknownName {key}"),
            PlanError::OutOfRange { key, value } => {
                format!(in alloc; "session: OutOfRange {key} {value}")
            }
            PlanError::BadLayout { device, error } => layout_line(alloc, *device, *error),
            PlanError::Memory => Ok(String::new(alloc)),
        }
    }
}

ghost use Rattle.session_plan.specs.ErrorLine.{layout_line, refused_line};

/// The number of the line that a layout is refused for.
fn refused_line(error: LayoutError) -> u64
    ensures { result ≡ refused_line error }
{
    match error {
        LayoutError::BadLine { line } => line,
        LayoutError::BadName { line } => line,
        LayoutError::Twice { line, .. } => line,
        LayoutError::Memory => 0,
    }
}

/// The line of a device whose layout is refused.
fn layout_line(alloc: Global, device: u8, error: LayoutError) -> Result<String, AllocError>
    ensures { IfOk result (λ line. string_bytes line ≡ layout_line device error) }
{
    let line = refused_line(error);
    format!(in alloc; "session: BadLayout {device} {line}")
}

impl From<AllocError> for PlanError {
    ghost from_gives = { λ _ e. e ≡ Memory };

    fn from(_error: AllocError) -> PlanError {
        PlanError::Memory
    }
}

impl<T: Drop> From<AllocFailed<T>> for PlanError {
    ghost from_gives = { λ _ e. e ≡ Memory };

    fn from(_error: AllocFailed<T>) -> PlanError {
        PlanError::Memory
    }
}
