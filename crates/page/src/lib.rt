// The page rule: older head firmware sends a page of 2,048 bytes, whose first 1,664 are the image. caldump and the C interface take an image by this rule; whoever stands below
// them knows images alone.

#![tactic(auto)]

ghost use Rattle.std.specs.Prelude.{◌≡◌, ◌≤◌};
ghost use Rattle.page.specs.Page.{image_length};

// How many bytes at the front of an input are its image: 1,664 of a page, and all of an input of any other length.
pub fn image_length(input: usize) -> usize
    ensures value { result ≡ image_length input }
    ensures upper_bound { result ≤ input }
{
    if input == 2048 { 1664 } else { input }
}
