// Linear maps of codes, by tables of the images of the codes' digits in base 4.
ghost use Rattle.std.specs.Prelude.{◌≡◌, ◌≤◌, length};
ghost use Rattle.field.specs.Images.{image_sum};

// The image of a: images[i][d] is the image of the digit d at the place i.
pub(crate) fn image(images: &[[u32; 4]], a: u32) -> u32
    requires { length images.now ≤ 16 }
    ensures { result ≡ image_sum images.now a }
{
    let mut sum = 0;
    for (i, row) in images.iter().enumerate() {
        let digit = (a >> (2 * i)) & 3;
        sum ^= row[digit as usize];
    }
    sum
}
