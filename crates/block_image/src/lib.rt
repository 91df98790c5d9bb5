//! Which packets of a block are kept, and what they give in its buffer.
//!
//! `specs/Kept.antt` says which packets are kept, and `specs/Image.antt` what they give. The laws
//! say of both, in words of their own, what the layers above rest on. `block_image` is the plain,
//! slow program of the same definitions, with which later ones are compared.
#![tactic(auto)]

mod extents; // how long an image is, and what is known of it
mod keeping; // which packets are kept
mod laws; // laws of the definitions, as contracts
mod looking; // what a list of packets has
mod plain; // the image, position by position
mod records; // what is known of a block by its packets

pub use extents::{extent, extent_of, info_of, tells_its_size};
pub use keeping::{does_fit, is_kept, kept_packets};
pub use laws::{
    all_packets_agree, all_packets_complete, bytes_are_in_place, complete_is_frame,
    ignores_leader_info, infos_are_worked, keeps_in_order, keeps_no_id_twice, keeps_one_trailer,
    keeps_the_first, keeps_what_fits, leaders_tell_images, misses_nothing, packets_agree,
    records_tell_their_frame, records_tell_their_length,
};
pub use plain::block_image;
pub use records::{count_payloads, has_its_bytes, start_of_payload};
