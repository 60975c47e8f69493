//! The code of a module that is known to be valid.
ghost use Rattle.std.specs.Prelude.{◌≡◌};
ghost use Rattle.code_forms.specs.Valid.{Valid, HasDepths};

use crate::module_code::ModuleCode;
use std::marker::Model;

/// The code of a module that is valid, with the depth beside each instruction.
#[derive(Drop)]
pub struct ValidCode {
    code: ModuleCode,
}

impl Model for ValidCode {
    ghost use Rattle.code_forms.specs.declared.module_code.ModuleCode.{ModuleCode};
    ghost use Rattle.code_forms.specs.Valid.{Valid, HasDepths};

    ghost Value = { ModuleCode };

    ghost view = { λ valid. valid.code };

    ghost invariant = { λ valid. Valid valid.code × HasDepths valid.code };
}

impl ValidCode {
    /// Code that is known to be valid; `validate` is the test.
    pub fn new(code: ModuleCode) -> ValidCode
        requires valid { Valid code }
        requires depths { HasDepths code }
        ensures { result ≡ code }
    {
        ValidCode { code }
    }

    pub fn code(&self) -> &ModuleCode
        ensures same { result.now ≡ self.now }
        ensures valid { Valid self.now }
        ensures depths { HasDepths self.now }
    {
        &self.code
    }

    /// The code alone.
    pub fn into_code(self) -> ModuleCode
        ensures same { result ≡ self }
        ensures valid { Valid self }
        ensures depths { HasDepths self }
    {
        self.code
    }
}
