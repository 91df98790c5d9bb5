ghost use Rattle.std.specs.Prelude.{◌≡◌};
ghost use Rattle.camera_words.specs.declared.access.Access.TheVariants.{Read};

use arrayvec::ArrayVec;

/// One access to a register of a camera.
#[derive(Clone, Copy, Debug, PartialEq, Eq)]
pub enum Access {
    /// The register is read.
    Read {
        /// Its address, a multiple of 4.
        register: u32,
    },
    /// The register is written.
    Write {
        /// Its address, a multiple of 4, and none of the registers that the program writes by itself.
        register: u32,
        /// What is written.
        value: u32,
    },
}

impl Default for Access {
    ghost is_default = { λ access. access ≡ Read 0 };

    fn default() -> Access {
        Access::Read { register: 0 }
    }
}

/// What `register` is asked for.
#[derive(Drop)]
pub struct RegisterWords {
    /// The camera's IPv4 address.
    pub camera: u32,
    /// The accesses in their order, 1 to 64.
    pub accesses: ArrayVec<Access, 64>,
}
