// What holds of the types of labelled fields.
ghost use Rattle.std.specs.Prelude.{◌<◌, List, length};
ghost use Rattle.elab_types.specs.Records.{in_label_order, record_of};
ghost use Rattle.type_core.specs.Size.{size_of};
ghost use Rattle.type_core.specs.declared.ty.Field.{Field};

/// The type of labelled fields has more nodes than there are fields.
pub fn records_have_nodes()
    ensures law { (fields : List Field) → length fields < size_of (record_of (in_label_order fields)) }
{}
