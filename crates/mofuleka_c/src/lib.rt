// The C interface: what crate `mofuleka` answers, under C names. Each function calls the library's function of the same name and promises the same.
// include/mofuleka.h declares them, and docs/INTERFACE.md lays out every byte.

#![tactic(auto)]

mod cameras;
mod explanations;
mod gatherings;
mod images;
mod pixels;
mod records;
mod sizes;

pub use cameras::{
    mofuleka_compensation_pixel, mofuleka_pixel_in_subpage, mofuleka_pixel_range,
    mofuleka_pixel_range_count, mofuleka_resolution_correction,
};
pub use explanations::mofuleka_explain;
pub use gatherings::{
    mofuleka_gathering_accept, mofuleka_gathering_fresh, mofuleka_gathering_from_data,
    mofuleka_gathering_merge, mofuleka_gathering_status, mofuleka_gathering_word,
};
pub use images::mofuleka_from_data;
pub use pixels::{mofuleka_gathering_pixel, mofuleka_pixel};
pub use records::{
    mofuleka_alpha_cp, mofuleka_interleave_correction_cp, mofuleka_interleave_correction_pixel,
    mofuleka_k_v_pixel, mofuleka_offset_reference_cp,
};
pub use sizes::{
    mofuleka_alpha_table_bytes, mofuleka_explanation_bytes, mofuleka_gathering_bytes,
    mofuleka_image_bytes, mofuleka_k_ta_table_bytes, mofuleka_offset_table_bytes,
    mofuleka_pixel_bytes, mofuleka_record_bytes,
};
