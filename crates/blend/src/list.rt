// Lists of items.
ghost use Rattle.std.specs.Prelude.{◌≡◌};
ghost use Rattle.blend.specs.Lists.{has};

// Whether the item is among the items.
pub fn has_item(items: &[u8], item: u8) -> bool
    ensures { result ≡ has item items.now }
{
    items.contains(&item)
}
