// The sizes.
use mofuleka::{
    mofuleka_alpha_table_bytes, mofuleka_explanation_bytes, mofuleka_gathering_bytes,
    mofuleka_image_bytes, mofuleka_k_ta_table_bytes, mofuleka_offset_table_bytes,
    mofuleka_pixel_bytes, mofuleka_record_bytes,
};
use script::Row;
use std::io::Result;

// Size n of the interface.
fn size_at(n: u16) -> usize {
    match n {
        0 => mofuleka_image_bytes(),
        1 => mofuleka_offset_table_bytes(),
        2 => mofuleka_alpha_table_bytes(),
        3 => mofuleka_k_ta_table_bytes(),
        4 => mofuleka_record_bytes(),
        5 => mofuleka_gathering_bytes(),
        7 => mofuleka_explanation_bytes(),
        _ => mofuleka_pixel_bytes(),
    }
}

pub fn size(rt: &impl Print, row: Row<'_>) -> Result<()> {
    rt.write_all(row.text())?;
    println!(rt; ": {}", size_at(row.number(1)))
}
