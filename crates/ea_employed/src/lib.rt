//! The carriers that an allocator instance employs: its main and multiblock carriers with what its
//! strategy finds gaps by, and its singleblock carriers, each list by rising number and with its
//! figures. Of the instance only its strategy is known here.
#![tactic(auto)]

mod binned;
pub mod carriers;
pub mod choice;
pub mod employed;
mod figures;
pub mod singles;
pub mod strategies;
mod walks;

pub use carriers::Carriers;
pub use ea_cset::Found;
pub use employed::Employed;
pub use singles::Singles;
