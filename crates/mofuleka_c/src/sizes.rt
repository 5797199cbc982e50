// How many bytes each layout has.
ghost use Rattle.std.specs.Prelude.{◌≡◌};
ghost use Rattle.layout.specs.Sizes.{image_size, offset_table_size, alpha_table_size, kta_table_size, record_size, gathering_size, pixel_size, explanation_size};

#[unsafe(no_mangle)]
pub extern "C" fn mofuleka_image_bytes() -> usize
    ensures { result ≡ image_size }
{
    mofuleka::mofuleka_image_bytes()
}

#[unsafe(no_mangle)]
pub extern "C" fn mofuleka_offset_table_bytes() -> usize
    ensures { result ≡ offset_table_size }
{
    mofuleka::mofuleka_offset_table_bytes()
}

#[unsafe(no_mangle)]
pub extern "C" fn mofuleka_alpha_table_bytes() -> usize
    ensures { result ≡ alpha_table_size }
{
    mofuleka::mofuleka_alpha_table_bytes()
}

#[unsafe(no_mangle)]
pub extern "C" fn mofuleka_k_ta_table_bytes() -> usize
    ensures { result ≡ kta_table_size }
{
    mofuleka::mofuleka_k_ta_table_bytes()
}

#[unsafe(no_mangle)]
pub extern "C" fn mofuleka_record_bytes() -> usize
    ensures { result ≡ record_size }
{
    mofuleka::mofuleka_record_bytes()
}

#[unsafe(no_mangle)]
pub extern "C" fn mofuleka_gathering_bytes() -> usize
    ensures { result ≡ gathering_size }
{
    mofuleka::mofuleka_gathering_bytes()
}

#[unsafe(no_mangle)]
pub extern "C" fn mofuleka_pixel_bytes() -> usize
    ensures { result ≡ pixel_size }
{
    mofuleka::mofuleka_pixel_bytes()
}

#[unsafe(no_mangle)]
pub extern "C" fn mofuleka_explanation_bytes() -> usize
    ensures { result ≡ explanation_size }
{
    mofuleka::mofuleka_explanation_bytes()
}
