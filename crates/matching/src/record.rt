// A record of a list, as queries are asked of it: its entries, where they stand in the list, and the slots that they are noted in, if any.
ghost use Rattle.std.specs.Prelude.{◌≡◌, true};
ghost use Rattle.rules.specs.Bytes.{every};
ghost use Rattle.rules.specs.Lists.{is_entry};

#[derive(Clone, Copy)]
pub struct Record<'a> {
    pub entries: &'a [u8],
    pub from: usize,
    pub slots: &'a [u16],
    ghost sound: { every is_entry entries.now ≡ true },
}
