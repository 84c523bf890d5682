// A log in one field, that can be worked on.
ghost use Rattle.std.specs.Prelude.{◌≡◌, ◌≤◌, length, Some};
ghost use Rattle.portal_log.specs.Text.{lines};
ghost use Rattle.portal_log.specs.Heads.{first_head};
ghost use Rattle.portal_log.specs.Entries.{log_limit};

use portal_log::name::LogField;
use subspace_code::parameters::Parameters;

// The bytes of a log within the limit, and what its first line gives for k and ℓ with the name of F.
#[derive(Drop)]
pub(crate) struct Log<'a, F: LogField> {
    pub(crate) bytes: &'a [u8],
    pub(crate) parameters: Parameters<F>,
    ghost short: { length bytes.now ≤ log_limit },
    ghost first: { first_head (lines bytes.now) ≡ Some (record { name = F.LogField.FIELD_NAME; l = parameters.l; k = parameters.k }) },
}
