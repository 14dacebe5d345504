// What holds of the layers. The function is the claim that its law is proved.
ghost use Rattle.refusals.specs.Refused.{Layers};

// A fault of a start has the layer plan, one of a file alone the layer file, one of a clip the layer clip, also within a file, and one of the
// state the layer catalogue.
pub fn layers_stand()
    ensures { Layers }
{}
