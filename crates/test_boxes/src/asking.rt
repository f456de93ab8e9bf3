//! Who asks by tests.

use crate::asked::TestForms;
use sgl_evaluate::{Frame, Rights};

/// Who asks by tests: a frame, the right sides of the tests there, and their forms where these are told.
#[derive(Clone, Copy)]
pub struct Asking<'a> {
    pub frame: &'a Frame<'a>,
    pub rights: &'a Rights,
    pub forms: Option<&'a TestForms>,
}
