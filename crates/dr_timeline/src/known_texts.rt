ghost use Rattle.std.specs.Str.{IsUtf8};
ghost use Rattle.std.specs.List.{AllByRecursion};

use dr_base::Event;

// Called for its clause alone: the dimension values of an event are UTF-8, as each text is. It takes time by their number.
pub(crate) fn known_texts(event: &Event)
    ensures { AllByRecursion IsUtf8 event.now.dims }
{
    for text in event.dims.as_slice() {
        let _ = text.as_str();
    }
}
