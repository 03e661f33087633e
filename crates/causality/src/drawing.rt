// What drawing up a log needs.
ghost use Rattle.std.specs.Prelude.{◌≡◌, true};
ghost use Rattle.causality.specs.Theorems.{OrderForSheets};

// Whether any two logs of a room, and any beginnings of them, are fit to be drawn up on sheets that agree. They always are.
pub fn order_for_sheets_holds<B: Copy>() -> bool
    ensures answer { result ≡ true }
    ensures sheets { OrderForSheets B }
{
    true
}
