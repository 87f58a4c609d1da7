// The margin columns of a plate's outside pairs.
ghost use Rattle.std.specs.Prelude.{◌≡◌};
ghost use Rattle.lines.specs.Listing.{columns_used, margin_of};

// The greatest margin column plus 1, or 0 with no point outside.
pub(crate) fn columns_used(pairs: &[u8]) -> u16
    ensures { result ≡ columns_used pairs.now }
{
    let (whole, _) = pairs.as_chunks::<2>();
    whole
        .iter()
        .map(|[_, margin]| u16::from(*margin) + 1)
        .max()
        .unwrap_or(0)
}

// The margin column of a position, 0 if it has none: the listing is defined on any bytes.
pub(crate) fn margin_of(pairs: &[u8], position: u8) -> u8
    ensures { result ≡ margin_of position pairs.now }
{
    let (pairs, _) = pairs.as_chunks::<2>();
    pairs
        .iter()
        .find(|[outside, _]| *outside == position)
        .map_or(0, |[_, margin]| *margin)
}
